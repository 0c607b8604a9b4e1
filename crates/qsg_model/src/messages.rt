//! A list of messages.

ghost use Rattle.std.specs.Prelude.{◌≡◌, length};

use qsg_msg::Message;
use std::marker::Model;

/// Messages, in order.
#[derive(Debug, Drop)]
pub struct Messages {
    messages: Vec<Message>,
}

impl Model for Messages {
    ghost use Rattle.std.specs.Prelude.{List};
    ghost use Rattle.qsg_msg.specs.declared.message.Message.{Message};

    ghost Value = { List Message };

    ghost view = { λ a. a.messages.items };
}

impl Messages {
    /// The list that a `Vec` holds. Takes no memory.
    pub fn from_vec(messages: Vec<Message>) -> Messages
        ensures { result ≡ messages.items }
    {
        Messages { messages }
    }

    /// The `Vec` that holds the list. Takes no memory.
    pub fn into_vec(self) -> Vec<Message>
        ensures { result.items ≡ self }
    {
        self.messages
    }

    /// Its messages.
    pub fn as_slice(&self) -> &[Message]
        ensures { result.now ≡ self.now }
    {
        self.messages.as_slice()
    }

    /// How many messages it has.
    pub fn len(&self) -> usize
        ensures { result ≡ length self.now }
    {
        self.messages.len()
    }
}
