use super::*;
use std::alloc::Global;

fn has_bytes(alloc: Global, text: &[u8], wanted: Option<&[u8]>) -> bool {
    match (hex_bytes(alloc, text), wanted) {
        (Ok(Some(bytes)), Some(wanted)) => bytes.as_slice() == wanted,
        (Ok(None), None) => true,
        _ => false,
    }
}

#[test]
fn numbers(rt: HostRuntime) {
    assert_eq!(rt; read_number(b"0", 0), Number::Value(0));
    assert_eq!(rt; read_number(b"9", 8), Number::TooLarge);
    assert_eq!(rt; read_number(b"8192", 8_192), Number::Value(8_192));
    assert_eq!(rt; read_number(b"8193", 8_192), Number::TooLarge);
    assert_eq!(rt;
        read_number(b"18446744073709551615", u64::MAX),
        Number::Value(u64::MAX)
    );
    assert_eq!(rt;
        read_number(b"18446744073709551616", u64::MAX),
        Number::TooLarge
    );
    assert_eq!(rt;
        read_number(
            b"10000000000000000000000000000000000000000000000000000000000000000000000",
            u64::MAX
        ),
        Number::TooLarge
    );
    assert_eq!(rt; read_number(b"", 9), Number::Bad);
    assert_eq!(rt; read_number(b"00", 9), Number::Bad);
    assert_eq!(rt; read_number(b"064", 99), Number::Bad);
    assert_eq!(rt; read_number(b"+1", 9), Number::Bad);
    assert_eq!(rt; read_number(b"-1", 9), Number::Bad);
    assert_eq!(rt; read_number(b"1 ", 9), Number::Bad);
    assert_eq!(rt; read_number(b"1K", 9), Number::Bad);
    assert_eq!(rt; read_number(b"\xb2", 9), Number::Bad);
    // too large, and no number besides
    assert_eq!(rt; read_number(b"99x", 9), Number::Bad);
}

#[test]
fn names(rt: HostRuntime) {
    assert_eq!(rt; name_form(b"QM1", 4), NameForm::Good);
    assert_eq!(rt; name_form(b"qM12", 4), NameForm::Good);
    assert_eq!(rt; name_form(b"QM123", 4), NameForm::TooLong);
    assert_eq!(rt; name_form(b"", 4), NameForm::Bad);
    assert_eq!(rt; name_form(b"1QM", 4), NameForm::Bad);
    assert_eq!(rt; name_form(b"Q.M", 4), NameForm::Bad);
    // two that stand together
    assert_eq!(rt; name_form(b"1QM.X", 4), NameForm::TooLong);
    // four characters of two bytes each
    assert_eq!(rt; name_form("ÄÖÜß".as_bytes(), 4), NameForm::Bad);
    assert_eq!(rt; characters("aÄ€😀".as_bytes()), 4);
    assert_eq!(rt; queue_name_form(b"A./_%9z"), NameForm::Good);
    assert_eq!(rt; queue_name_form(b"A B"), NameForm::Bad);
    assert_eq!(rt; queue_name_form(b""), NameForm::Bad);
    assert_eq!(rt; queue_name_form(b"\xff"), NameForm::Bad);
    let longest = [b'Q'; 48];
    assert_eq!(rt; queue_name_form(&longest), NameForm::Good);
    let too_long = [b'!'; 49];
    assert_eq!(rt; queue_name_form(&too_long), NameForm::TooLong);
}

#[test]
fn copies_of_names(rt: HostRuntime) {
    let Ok(name) = copy_name(rt.alloc(), b"APP1") else {
        assert!(rt; false);
        return;
    };
    assert!(rt; name.is("APP1"));
    let Ok(queue) = copy_queue_name(rt.alloc(), b"PAY.IN") else {
        assert!(rt; false);
        return;
    };
    assert!(rt; queue.is("PAY.IN"));
}

#[test]
fn hexadecimal(rt: HostRuntime) {
    let alloc = rt.alloc();
    assert!(rt; has_bytes(alloc, b"", Some(b"")));
    assert!(rt; has_bytes(alloc, b"00fF9aA9", Some(b"\x00\xff\x9a\xa9")));
    assert!(rt; has_bytes(alloc, b"0", None));
    assert!(rt; has_bytes(alloc, b"0g", None));
    assert!(rt; has_bytes(alloc, b"0G12", None));
    assert!(rt; has_bytes(alloc, b"0 ", None));
    let digits = [b'a'; 48];
    assert_eq!(rt; hex_id(&digits), Some([170; 24]));
    assert_eq!(rt; hex_id(&digits[..46]), None);
    assert_eq!(rt; hex_id(&digits[..47]), None);
    let more = [b'a'; 50];
    assert_eq!(rt; hex_id(&more), None);
    let other = [b'x'; 48];
    assert_eq!(rt; hex_id(&other), None);
}
