//! Reading an entry, a step of the server's history, from its record (`docs/formats.md`, "Entry record"),
//! without a look at the bytes that are unused there.

ghost use Rattle.std.specs.Prelude.{◌≡◌, length};
ghost use Rattle.fe_format.specs.Layout.{record_bytes};
ghost use Rattle.fe_codec.specs.Reading.{name_of, create_of, access_of, request_of, finished_of, entry_of};

use crate::Format;
use fe_codes::{answer_of, op_of, tag_of};
use fe_fields::{u32_at, u64_at};
use fe_state::{Entry, Name, Request};

/// As many bytes as a record of the format has.
#[derive(Drop)]
pub(crate) struct RecordBytes<'r> {
    pub(crate) format: Format,
    pub(crate) bytes: &'r [u8],
    ghost length: { length bytes.now ≡ record_bytes format },
}

impl RecordBytes<'_> {
    /// The name in the row of a record, unless it is longer than the row.
    #[tactic(auto, unfolding(crate::specs::Reading::name_of))]
    fn name(&self) -> Option<Name>
        ensures { result ≡ name_of self.now.format self.now.bytes.now }
    {
        let len = usize::from(self.bytes[3]);
        if len <= self.format.name_bytes() {
            Name::new(&self.bytes[24..24 + len])
        } else {
            None
        }
    }

    #[tactic(auto, unfolding(crate::specs::Reading::create_of))]
    fn create(&self) -> Option<Request>
        ensures { result ≡ create_of self.now.format self.now.bytes.now }
    {
        let name = self.name()?;
        let tag = tag_of(self.bytes[4])?;
        let length = u32_at(self.bytes, 24 + self.format.name_bytes());
        Some(Request::Create { name, length, tag })
    }

    #[tactic(auto, unfolding(crate::specs::Reading::access_of))]
    fn access(&self) -> Option<Request>
        ensures { result ≡ access_of self.now.format self.now.bytes.now }
    {
        let op = op_of(self.bytes[1], u64_at(self.bytes, 32))?;
        let array = u64_at(self.bytes, 24);
        let index = u32_at(self.bytes, 24 + self.format.name_bytes());
        let no_wait = self.bytes[5] == 1;
        Some(Request::Access {
            array,
            index,
            op,
            no_wait,
        })
    }

    #[tactic(auto, unfolding(crate::specs::Reading::request_of, crate::specs::Reading::find_of))]
    fn request(&self) -> Option<Request>
        ensures { result ≡ request_of self.now.format self.now.bytes.now }
    {
        match self.bytes[1] {
            1 => self.create(),
            2 => Some(Request::Find { name: self.name()? }),
            3 => Some(Request::Remove {
                array: u64_at(self.bytes, 24),
            }),
            _ => self.access(),
        }
    }

    #[tactic(auto, unfolding(crate::specs::Reading::finished_of))]
    fn finished(&self) -> Option<Entry>
        ensures { result ≡ finished_of self.now.format self.now.bytes.now }
    {
        let request = self.request()?;
        let value = u64_at(self.bytes, 32 + self.format.name_bytes());
        let length = u32_at(self.bytes, 28 + self.format.name_bytes());
        let answer = answer_of(self.bytes[2], value, length)?;
        let session = u64_at(self.bytes, 8);
        let number = u64_at(self.bytes, 16);
        Some(Entry::Finished {
            session,
            number,
            request,
            answer,
        })
    }

    /// The only entry whose record these bytes may be, or `None` if they are no record.
    #[tactic(auto, unfolding(crate::specs::Reading::entry_of))]
    pub(crate) fn entry(&self) -> Option<Entry>
        ensures { result ≡ entry_of self.now.format self.now.bytes.now }
    {
        let session = u64_at(self.bytes, 8);
        let number = u64_at(self.bytes, 16);
        match self.bytes[0] {
            1 => Some(Entry::Attached {
                session,
                floor: number,
            }),
            2 => Some(Entry::Closed { session }),
            3 => Some(Entry::Settled {
                session,
                floor: number,
            }),
            4 => self.finished(),
            _ => None,
        }
    }
}
