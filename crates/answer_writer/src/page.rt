//! A page, on which a text is gathered before it is sent.
ghost use Rattle.std.specs.Prelude.{◌≡◌, ◌≤◌, [], length};
ghost use Rattle.route_io.specs.Sinks.{OffersWhole, Sends};
ghost use Rattle.answer_writer.specs.Pages.{Gathers};

use arrayvec::ArrayString;
use route_io::{Sink, WriteFault, put_all};
use std::marker::Model;

/// How many bytes a page holds.
const PAGE: usize = 4096;

/// What is still to be sent of a text.
#[derive(Drop)]
pub struct Page {
    text: ArrayString<PAGE>,
}

impl Model for Page {
    ghost use Rattle.std.specs.Prelude.{ℕ, List};

    ghost Value = { List ℕ };

    ghost view = { λ p. p.text.bytes };
}

impl Page {
    /// A page that holds nothing.
    pub fn new() -> Page
        ensures { result ≡ [] }
    {
        Page {
            text: ArrayString::new(),
        }
    }

    /// Puts a text behind what the page holds, which is sent where both don't fit, and so is a text longer than a page. Where
    /// both fit, the sink isn't called.
    pub fn put<K: Sink>(&mut self, sink: &mut K, text: &str) -> Result<(), WriteFault>
        ensures { Gathers (K.state sink.old) (K.state sink.new) self.old self.new text.now result }
    {
        if self.text.remaining_capacity() < text.len() {
            self.send(sink)?;
            if text.len() > PAGE {
                return put_all(sink, text.as_bytes());
            }
        }
        self.text.push_str(text);
        Ok(())
    }

    /// Sends what the page holds.
    pub fn send<K: Sink>(&mut self, sink: &mut K) -> Result<(), WriteFault>
        ensures empty { self.new ≡ [] }
        ensures sent { Sends (K.state sink.old) (K.state sink.new) self.old result }
        ensures whole { OffersWhole (K.state sink.old) (K.state sink.new) self.old }
    {
        let sent = put_all(sink, self.text.as_bytes());
        self.text.clear();
        sent
    }
}
