//! Operations as text.
ghost use Rattle.std.specs.Prelude.{Some, is_some};
ghost use Rattle.std.specs.Option.{unwrap_or};
ghost use Rattle.recording.specs.Codes.{code_number};
ghost use Rattle.recording.specs.Rows.{operation_row};
ghost use Rattle.recording.specs.Texts.{further, marks_text, operation_name, operation_text};

use crate::code::Code;
use crate::marks::Marks;
use crate::operation::Operation;
use std::fmt;

impl fmt::Display for Marks {
    ghost output = { λ m. Some (marks_text m) };

    fn fmt<W: fmt::Write>(&self, f: &mut fmt::Formatter<W>) -> fmt::Result {
        match (self.environment, self.delay) {
            (false, None) => Ok(()),
            (true, None) => write!(f, ",env"),
            (false, Some(delay)) => write!(f, ",delay={delay}"),
            (true, Some(delay)) => write!(f, ",env,delay={delay}"),
        }
    }
}

impl fmt::Display for Code {
    ghost output = { λ c. Some (operation_name (code_number c)) };

    fn fmt<W: fmt::Write>(&self, f: &mut fmt::Formatter<W>) -> fmt::Result {
        match self {
            Code::ThreadInit => write!(f, "threadinit"),
            Code::ThreadExit => write!(f, "threadexit"),
            Code::Fork => write!(f, "fork"),
            Code::Join => write!(f, "join"),
            Code::AttachQ => write!(f, "attachQ"),
            Code::LoopOnQ => write!(f, "loopOnQ"),
            Code::Post => write!(f, "post"),
            Code::Begin => write!(f, "begin"),
            Code::End => write!(f, "end"),
            Code::Acquire => write!(f, "acquire"),
            Code::Release => write!(f, "release"),
            Code::Enable => write!(f, "enable"),
            Code::Read => write!(f, "read"),
            Code::Write => write!(f, "write"),
        }
    }
}

/// A number behind a comma, where the operation has it.
#[derive(Clone, Copy)]
struct Further(Option<u16>);

impl fmt::Display for Further {
    ghost output = { λ x. Some (further (is_some x.0) (unwrap_or x.0 0)) };

    fn fmt<W: fmt::Write>(&self, f: &mut fmt::Formatter<W>) -> fmt::Result {
        match self.0 {
            Some(number) => write!(f, ",{number}"),
            None => Ok(()),
        }
    }
}

impl fmt::Display for Operation {
    ghost output = { λ o. Some (operation_text (operation_row o)) };

    fn fmt<W: fmt::Write>(&self, f: &mut fmt::Formatter<W>) -> fmt::Result {
        let row = self.row();
        let code = self.code();
        let thread = row.thread;
        let item = Further(code.has_item().then_some(row.item));
        let target = Further(code.has_target().then_some(u16::from(row.target)));
        let marks = Marks::from(row);
        write!(f, "{code}({thread}{item}{target}{marks})")
    }
}
