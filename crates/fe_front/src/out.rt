/// Where the batch that is out (cut and not yet posted) begins, and how many entries it has (`docs/model.md`,
/// "The front").
#[derive(Clone, Copy, PartialEq, Eq)]
pub(crate) struct Out {
    pub first: u64,
    pub length: usize,
}
