//! Part of what `serve` returns, when a fault ends the server (`docs/headline.md`, "Every acknowledged
//! answer").

use crate::stop_fault::StopFault;
use crate::transcript_log::TranscriptLog;
use fe_disk::Disk;
use fe_hall::Account;
use fe_keeper::Keeper;

/// What a server leaves when a fault ends it. The account has the receipts that were kept until then, and the
/// transcripts, for clauses alone, are those of the connections that had ended.
#[derive(Drop)]
pub struct Failed<D: Disk> {
    pub fault: StopFault,
    pub keeper: Keeper<D>,
    pub account: Account,
    pub transcripts: TranscriptLog,
}
