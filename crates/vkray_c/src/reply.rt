ghost use Rattle.std.specs.Prelude.{◌≡◌, IfOk};

use std::alloc::{AllocError as NoMemory, Global};
use vkray::Status;

// A text and its status.
#[derive(Drop)]
pub(crate) struct Reply {
    pub(crate) status: Status,
    pub(crate) text: Vec<u8>,
}

impl Reply {
    // A status with its line.
    pub(crate) fn of_line(alloc: Global, status: Status, line: &[u8]) -> Result<Reply, NoMemory>
        ensures status { IfOk result (λ reply. reply.status ≡ status) }
        ensures text { IfOk result (λ reply. reply.text.items ≡ line.now) }
    {
        let text = Vec::from_slice(alloc, line)?;
        Ok(Reply { status, text })
    }
}
