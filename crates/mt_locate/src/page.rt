//! The lines of a list on their way to a sink.

ghost use Rattle.std.specs.Prelude.{◌≡◌, [], ◌++◌, OnOk, OnErr};
ghost use Rattle.mt_port.specs.Causes.{HasCause};
ghost use Rattle.mt_port.specs.Gathering.{Gathers};
ghost use Rattle.mt_port.specs.Streams.{AppendsFront};
ghost use Rattle.mt_locate.specs.Listed.{fault_line};

use mt_fault::Fault;
use mt_port::{Failed, Gathered, Sink};
use mt_text::{LineText, push_fault_line};
use mt_word::Width;

/// The text of one line after another, and the lines that wait for the sink.
#[derive(Drop)]
pub struct Page {
    text: LineText,
    pub waiting: Gathered,
}

impl Page {
    /// No line waits.
    pub fn new() -> Page
        ensures { result.waiting ≡ [] }
    {
        Page {
            text: LineText::new(),
            waiting: Gathered::new(),
        }
    }

    /// Writes the line that injects a fault.
    pub fn write<K: Sink>(&mut self, width: Width, fault: Fault, sink: &mut K) -> Result<(), Failed>
        ensures ok { OnOk result (Gathers (K.held sink.old) (K.held sink.new) self.old.waiting self.new.waiting
            (fault_line width fault)) }
        ensures err { OnErr result (AppendsFront (K.held sink.old) (K.held sink.new)
            (self.old.waiting ++ fault_line width fault)) }
        ensures cause { HasCause (K.faults sink.old) (K.faults sink.new) result }
    {
        self.text.clear();
        push_fault_line(&mut self.text, fault, width);
        self.waiting.put(sink, &self.text)
    }
}
