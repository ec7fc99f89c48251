ghost use Rattle.std.specs.Prelude.{◌≡◌, ◌+◌, ◌≤◌, ◌↔◌, IsTrue};
ghost use Rattle.fe_format.specs.Layout.{magic_of, name_bytes, record_bytes, group_records, longest_payload};
ghost use Rattle.fe_format.specs.Layout.{longest_image, IsPayloadLength, IsImageLength};

/// The format of a store. It says how entries and images of the state are spelled as bytes, and how long
/// groups of entries and images may be (`docs/formats.md`). Each of a store's two slots has its own. New
/// stores have format 2.
#[derive(Clone, Copy, PartialEq, Eq)]
pub enum Format {
    /// Names of up to 16 bytes, no access that must not wait, and no answer `NotNow`.
    One,
    /// Names of up to 32 bytes.
    Two,
}

impl Format {
    /// The eight bytes at a header's beginning, as a number (`docs/formats.md`, "Device").
    pub fn magic(self) -> u64
        ensures { result ≡ magic_of self }
    {
        match self {
            Format::One => 0x4645_4d45_4d53_5431,
            Format::Two => 0x4645_4d45_4d53_5432,
        }
    }

    /// How many bytes the field of a name has: 16 or 32 (`docs/formats.md`, "Entry record").
    pub fn name_bytes(self) -> usize
        ensures value { result ≡ name_bytes self }
        ensures least { 16 ≤ name_bytes self }
        ensures most { name_bytes self ≤ 32 }
        ensures of_record { record_bytes self ≡ name_bytes self + 48 }
    {
        match self {
            Format::One => 16,
            Format::Two => 32,
        }
    }

    /// How many bytes the record of an entry has: 64 or 80 (`docs/formats.md`, "Entry record").
    pub fn record_bytes(self) -> usize
        ensures value { result ≡ record_bytes self }
        ensures least { 64 ≤ record_bytes self }
        ensures most { record_bytes self ≤ 80 }
    {
        match self {
            Format::One => 64,
            Format::Two => 80,
        }
    }

    /// How many records a group has at most: 16,383 or 13,107.
    pub fn group_records(self) -> usize
        ensures { result ≡ group_records self }
    {
        match self {
            Format::One => 16383,
            Format::Two => 13107,
        }
    }

    /// The length of the longest payload of a group, in bytes (`docs/formats.md`, "Journal area").
    pub fn longest_payload(self) -> usize
        ensures { result ≡ longest_payload self }
    {
        match self {
            Format::One => 1_048_512,
            Format::Two => 1_048_560,
        }
    }

    /// The length of the longest image, in bytes (`docs/formats.md`, "Image").
    pub fn longest_image(self) -> usize
        ensures { result ≡ longest_image self }
    {
        match self {
            Format::One => 740_440,
            Format::Two => 774_232,
        }
    }

    /// Whether a payload may have this length in bytes.
    pub fn allows_payload(self, length: usize) -> bool
        ensures { IsTrue result ↔ IsPayloadLength self length }
    {
        length >= 1 && length <= self.longest_payload() && length % self.record_bytes() == 0
    }

    /// Whether an image may have this length in bytes.
    pub fn allows_image(self, length: usize) -> bool
        ensures { IsTrue result ↔ IsImageLength self length }
    {
        length >= 24 && length <= self.longest_image()
    }
}
