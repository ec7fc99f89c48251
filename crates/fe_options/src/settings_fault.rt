use crate::key::Key;

/// Why settings were not read (`docs/settings.md`).
#[derive(Clone, Copy, PartialEq, Eq)]
pub enum SettingsFault {
    /// The setting is required and missing, or has a wrong value.
    Setting(Key),
    /// There is a key outside the settings.
    UnknownKey,
    /// The text is not a TOML document.
    NotToml,
    /// Memory ran out.
    Memory,
}
