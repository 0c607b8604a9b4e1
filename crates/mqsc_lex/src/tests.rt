ghost use Rattle.std.specs.Prelude.{◌<◌, ◌^◌, length};

use super::*;
use std::alloc::Global;

fn fault_of(alloc: Global, text: &str) -> Option<LexFault>
    requires { length text.now < 2 ^ 32 }
{
    match lex(alloc, text) {
        Err(LexError::Fault(fault)) => Some(fault),
        _ => None,
    }
}

fn has_value(word: &Word, text: &[u8], quoted: bool) -> bool {
    match &word.value {
        Some(value) => value.quoted == quoted && value.text.as_slice() == text,
        None => false,
    }
}

#[test]
fn leftmost_faults(rt: HostRuntime) {
    let alloc = rt.alloc();
    assert_eq!(rt;
        fault_of(alloc, "A 'it''s"),
        Some(LexFault::UnclosedText(2))
    );
    assert_eq!(rt; fault_of(alloc, "A(b"), Some(LexFault::UnclosedParen(1)));
    assert_eq!(rt; fault_of(alloc, "A(b c)"), Some(LexFault::UnclosedParen(1)));
    assert_eq!(rt; fault_of(alloc, "A('b"), Some(LexFault::UnclosedParen(1)));
    assert_eq!(rt; fault_of(alloc, "A((b))"), Some(LexFault::UnclosedParen(1)));
    assert_eq!(rt; fault_of(alloc, "A( \t)"), Some(LexFault::EmptyValue(1)));
    assert_eq!(rt; fault_of(alloc, "(A)"), Some(LexFault::BadByte(0)));
    assert_eq!(rt; fault_of(alloc, "A'b'"), Some(LexFault::BadByte(1)));
    assert_eq!(rt; fault_of(alloc, "A(b)c"), Some(LexFault::BadByte(4)));
    assert_eq!(rt; fault_of(alloc, "'a'b"), Some(LexFault::BadByte(3)));
    assert_eq!(rt; fault_of(alloc, "A\u{1}"), Some(LexFault::BadByte(1)));
    // two that stand together
    assert_eq!(rt; fault_of(alloc, "A() B("), Some(LexFault::EmptyValue(1)));
    assert_eq!(rt; fault_of(alloc, "A\u{1}(b"), Some(LexFault::BadByte(1)));
    assert_eq!(rt; fault_of(alloc, "'a\u{1}"), Some(LexFault::UnclosedText(0)));
    assert_eq!(rt;
        fault_of(alloc, "A(b\u{1}"),
        Some(LexFault::UnclosedParen(1))
    );
    assert_eq!(rt; fault_of(alloc, "A(b\u{1})"), Some(LexFault::BadByte(3)));
}

#[test]
fn words_in_order(rt: HostRuntime) {
    let Ok(words) = lex(rt.alloc(), "def  qlocal( 'it''s' ) 'x''y'(Ab)\tÄz") else {
        assert!(rt; false);
        return;
    };
    let [verb, object, name, last] = words.as_slice() else {
        assert!(rt; false);
        return;
    };
    assert!(rt; verb.key.is("DEF") && !verb.key_quoted && verb.value.is_none());
    assert_eq!(rt; (verb.start, verb.end), (0, 3));
    assert!(rt; object.key.is("QLOCAL") && !object.key_quoted);
    assert_eq!(rt; (object.start, object.end), (5, 22));
    assert!(rt; has_value(object, b"it's", true));
    assert!(rt; name.key.is("x'y") && name.key_quoted);
    assert_eq!(rt; (name.start, name.end), (23, 33));
    assert!(rt; has_value(name, b"AB", false));
    assert!(rt; last.key.is("ÄZ") && !last.key_quoted && last.value.is_none());
    assert_eq!(rt; (last.start, last.end), (34, 37));
}
