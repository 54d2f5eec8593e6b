// Why a run has nothing to write to its output.
use crate::query::Span;
use crate::statuses::{
    CERTIFICATE_REFUSED, EVENT_REFUSED, FILES_REFUSED, NOT_READ, OUT_OF_MEMORY, SPAN_REFUSED,
    TOO_MANY_LEAVES, WORDS_REFUSED,
};
use spec_faults::{BAD_VALUE, NO_COMMAND, UNKNOWN_COMMAND, WORDS};
use spec_kinds::EventFault;
use spec_requests::{Named, Text, WordFault};
use spec_text::Fault;
use std::alloc::AllocError;

/// Why a run has nothing to write to its output.
#[derive(Drop)]
pub enum Refusal {
    /// The command line is invalid, by the fault of this number, which an option may have.
    Words { number: u8, option: Option<Named> },
    /// The file of this name has the first fault, or is the first of too many.
    File { name: Text, fault: Fault },
    /// The file of this name could not be read.
    NotRead { name: Text },
    /// The span is not one of the files, whose whole span the other is.
    Outside { span: Span, whole: Span },
    /// The event cannot be searched for in the files.
    Event(EventFault),
    /// The search has more leaves than this, the most that it may have.
    TooManyLeaves { most: u32 },
    /// The first line of the certificate that breaks a rule, counted from 1, and the number of the rule.
    Certificate { line: u32, number: u8 },
    /// Out of memory.
    Memory,
}

impl Refusal {
    ghost use Rattle.std.specs.Prelude.{◌≡◌};
    ghost use Rattle.spec_outcomes.specs.Refusals.{of_fault, status_of};

    /// Returns the refusal of a run for this fault of its event; `None` stands for out of memory, the only other cause
    /// in making an event.
    pub fn of_fault(fault: Option<EventFault>) -> Refusal
        ensures { result ≡ of_fault fault }
    {
        match fault {
            Some(fault) => Refusal::Event(fault),
            None => Refusal::Memory,
        }
    }

    /// Returns the exit status of a run that is refused for this cause: from 2 to 10, but not 5, the status of texts
    /// that are not written whole.
    pub fn status(&self) -> u8
        ensures { result ≡ status_of self.now }
    {
        match self {
            Refusal::Words { .. } => WORDS_REFUSED,
            Refusal::File { .. } => FILES_REFUSED,
            Refusal::NotRead { .. } => NOT_READ,
            Refusal::Outside { .. } => SPAN_REFUSED,
            Refusal::Event(_) => EVENT_REFUSED,
            Refusal::TooManyLeaves { .. } => TOO_MANY_LEAVES,
            Refusal::Certificate { .. } => CERTIFICATE_REFUSED,
            Refusal::Memory => OUT_OF_MEMORY,
        }
    }
}

impl From<WordFault> for Refusal {
    ghost use Rattle.std.specs.Prelude.{◌≡◌};
    ghost use Rattle.spec_outcomes.specs.Refusals.{of_words};

    ghost from_gives = { λ fault refusal. refusal ≡ of_words fault };

    // Converts a fault of the command line to the refusal of the run, with the fault's number and its option if it has
    // one, or to out of memory.
    fn from(fault: WordFault) -> Self {
        match fault {
            WordFault::NoCommand => Refusal::Words {
                number: NO_COMMAND,
                option: None,
            },
            WordFault::UnknownCommand => Refusal::Words {
                number: UNKNOWN_COMMAND,
                option: None,
            },
            WordFault::Words => Refusal::Words {
                number: WORDS,
                option: None,
            },
            WordFault::BadValue(option) => Refusal::Words {
                number: BAD_VALUE,
                option: Some(option),
            },
            WordFault::Memory => Refusal::Memory,
        }
    }
}

impl From<AllocError> for Refusal {
    ghost use Rattle.std.specs.Prelude.{◌≡◌};
    ghost use Rattle.spec_outcomes.specs.declared.refusal.Refusal.TheVariants.{Memory};

    ghost from_gives = { λ _ refusal. refusal ≡ Memory };

    // Converts a failed allocation to the refusal of the run that is out of memory.
    fn from(_: AllocError) -> Self {
        Refusal::Memory
    }
}
