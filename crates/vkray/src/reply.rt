ghost use Rattle.std.specs.Prelude.{◌≡◌, Err, IfOk, OnOk, true};
ghost use Rattle.vkray.specs.Endings.{is_told};
ghost use Rattle.vkray.specs.Written.{line_of_fault, status_of, status_of_fault, text_of};

use crate::input_fault::InputFault;
use crate::line::{bad_shape_line, bad_submits_line, bad_table_line, refusal_line};
use crate::status::Status;
use crate::stop::Stop;
use std::alloc::{AllocError as NoMemory, Global};

/// What is written, and the status once it is.
#[derive(Drop)]
pub(crate) struct Reply {
    pub(crate) status: Status,
    pub(crate) text: Vec<u8>,
}

impl Reply {
    // The line that says why there is no text of a run. Want of memory has none.
    pub(crate) fn of_stop(alloc: Global, stop: Stop) -> Result<Reply, NoMemory>
        ensures status { IfOk result (λ reply. reply.status ≡ status_of (Err stop)) }
        ensures text { IfOk result (λ reply. reply.text.items ≡ text_of (Err stop)) }
        ensures told { OnOk result (is_told stop ≡ true) }
    {
        match stop {
            Stop::BadWords => Reply::of_line(alloc, Status::BadWords, b"bad-words\n"),
            Stop::ReadFault => Reply::of_line(alloc, Status::ReadFault, b"read-fault\n"),
            Stop::TooLong => Reply::of_line(alloc, Status::TooLong, b"too-long\n"),
            Stop::Input(fault) => Reply::of_fault(alloc, fault),
            Stop::NoMemory => Err(NoMemory),
        }
    }

    // The line that says what is wrong with an input.
    fn of_fault(alloc: Global, fault: InputFault) -> Result<Reply, NoMemory>
        ensures status { IfOk result (λ reply. reply.status ≡ status_of_fault fault) }
        ensures text { IfOk result (λ reply. reply.text.items ≡ line_of_fault fault) }
    {
        match fault {
            InputFault::NotJson => Reply::of_line(alloc, Status::BadRecording, b"not-json\n"),
            InputFault::BadObject => Reply::of_line(alloc, Status::BadRecording, b"bad-object\n"),
            InputFault::BadShape(command) => {
                let line = bad_shape_line(alloc, command)?;
                Reply::of_line(alloc, Status::BadRecording, line.as_bytes())
            }
            InputFault::BadTable(entry) => {
                let line = bad_table_line(alloc, entry)?;
                Reply::of_line(alloc, Status::BadRecording, line.as_bytes())
            }
            InputFault::BadSubmits(entry) => {
                let line = bad_submits_line(alloc, entry)?;
                Reply::of_line(alloc, Status::BadRecording, line.as_bytes())
            }
            InputFault::BadCertificates => {
                Reply::of_line(alloc, Status::BadRecording, b"bad-certificates\n")
            }
            InputFault::Refused(refusal) => {
                let line = refusal_line(alloc, &refusal)?;
                Reply::of_line(alloc, Status::Refused, line.as_bytes())
            }
        }
    }

    // A status with its line.
    fn of_line(alloc: Global, status: Status, line: &[u8]) -> Result<Reply, NoMemory>
        ensures status { IfOk result (λ reply. reply.status ≡ status) }
        ensures text { IfOk result (λ reply. reply.text.items ≡ line.now) }
    {
        let text = Vec::from_slice(alloc, line)?;
        Ok(Reply { status, text })
    }
}
