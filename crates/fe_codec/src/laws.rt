//! Facts about how entries, groups of entries and states are written as bytes (`docs/formats.md`, "Entry
//! record" and "Image"). The bytes of an entry are its record, those of a state its image. Each function
//! states one, the last the limits of the fields, and does nothing.

ghost use Rattle.std.specs.Prelude.{◌≡◌, ◌+◌, ◌^◌};
ghost use Rattle.fe_codec.specs.Image.{EntryHasOneSpelling, GroupHasOneSpelling, ImageIsSpelled};
ghost use Rattle.fe_codec.specs.Image.{SpellingIsRead, ImageHasOneSpelling};
ghost use Rattle.fe_format.specs.Layout.{record_bytes};
ghost use Rattle.fe_format.specs.declared.format.Format.TheVariants.{Two};
ghost use Rattle.fe_state.specs.Limits.{most_sessions, window_length, greatest_floor, most_arrays};
ghost use Rattle.fe_state.specs.Limits.{greatest_place};
ghost use Rattle.fe_codec.specs.declared.header.TheConstants.{PLACE_LIMIT, ARRAY_LIMIT, SESSION_LIMIT};
ghost use Rattle.fe_codec.specs.declared.sessions.TheConstants.{FLOOR_LIMIT, KEPT_LIMIT};
ghost use Rattle.fe_codec.specs.declared.entries.TheConstants.{NUMBER_LIMIT};
ghost use Rattle.fe_codec.specs.declared.record.TheConstants.{RECORD_BYTES};

/// In one format no record begins another, and different entries have different records.
pub fn one_entry_spelling()
    ensures { EntryHasOneSpelling }
{}

/// In one format different groups of entries have different bytes.
pub fn one_group_spelling()
    ensures { GroupHasOneSpelling }
{}

/// Bytes that the rules of `docs/formats.md` read, in one format, as a state are that state's image in it.
pub fn images_are_spelled()
    ensures { ImageIsSpelled }
{}

/// The same rules read the image of a state as that state.
pub fn spelled_images_are_read()
    ensures { SpellingIsRead }
{}

/// In one format different states have different images.
pub fn one_image_spelling()
    ensures { ImageHasOneSpelling }
{}

/// The constants of the code are the limits in the definitions: each limit of a field is 1 above the greatest
/// value, and the longest record is one of format 2.
pub fn limits_are()
    ensures place { PLACE_LIMIT ≡ greatest_place + 1 }
    ensures arrays { ARRAY_LIMIT ≡ most_arrays + 1 }
    ensures sessions { SESSION_LIMIT ≡ most_sessions + 1 }
    ensures floor { FLOOR_LIMIT ≡ greatest_floor + 1 }
    ensures kept { KEPT_LIMIT ≡ window_length + 1 }
    ensures number { NUMBER_LIMIT ≡ 2 ^ 63 }
    ensures record { RECORD_BYTES ≡ record_bytes Two }
{}
