//! Part of what `serve` returns, at an end without a fault (`docs/proved.md`, "Server").

use crate::transcript_log::TranscriptLog;
use fe_disk::Disk;
use fe_hall::Audit;
use fe_keeper::Keeper;

/// What a server leaves that ended without a fault: the result of closing its hall, with the books, the
/// keeper of its store, and, for clauses alone, the transcripts of its connections.
#[derive(Drop)]
pub struct Served<D: Disk> {
    pub audit: Audit,
    pub keeper: Keeper<D>,
    pub transcripts: TranscriptLog,
}
