//! What is reported of scripts.

use session_core::SessionFault;

/// Of a script: how many replies were put, the number of points that was seen last, or 0, and the fault that ended it.
#[derive(Drop)]
pub struct ScriptCounts {
    pub replies: u64,
    pub seen: u64,
    pub fault: Option<SessionFault>,
}
