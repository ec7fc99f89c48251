//! Reading the settings of a server (`docs/settings.md`).

ghost use Rattle.std.specs.Prelude.{◌≡◌, Some, IfOk, IfErr, option_map};
ghost use Rattle.toml.specs.Data.{Members};
ghost use Rattle.toml.specs.Parse.{parse_document};
ghost use Rattle.toml.specs.View.{table_view, view};
ghost use Rattle.fe_options.specs.Settings.{value_of, text_of, number_in, number_under, flag_under, is_known};
ghost use Rattle.fe_options.specs.Settings.{has_known_keys, IsSettingsOf, RefusesDocument, RefusesText};

use crate::key::Key;
use crate::settings::Settings;
use crate::settings_fault::SettingsFault;
use std::alloc::Global;
use toml::{Table, Value};

/// The most connections that are served at once. `USUAL_CONNECTIONS` is the default.
const MOST_CONNECTIONS: u64 = 256;

const USUAL_CONNECTIONS: u64 = 64;

/// The greatest value of `accepts`.
const MOST_ACCEPTS: u64 = 65_536;

/// The greatest value of `turns`. `USUAL_TURNS` is the default.
const MOST_TURNS: u64 = 1 << 40;

const USUAL_TURNS: u64 = 1_000_000_000;

/// The value at a key.
fn value_at(table: &Table, key: Key) -> Option<&Value>
    ensures { option_map (λ value. view value.now) result ≡ value_of key (table_view table.now) }
{
    table.get(key.name())
}

/// The text at a key.
fn text_at<'a>(table: &'a Table, key: Key) -> Option<&'a str>
    ensures { option_map (λ text. text.now) result ≡ text_of key (table_view table.now) }
{
    let value = value_at(table, key)?;
    value.as_str()
}

/// The value as a number, if it is an integer within these bounds.
fn number_in(value: &Value, least: u64, most: u64) -> Option<u64>
    ensures { result ≡ number_in least most (view value.now) }
{
    let integer = value.as_integer()?;
    if integer < 0 {
        return None;
    }
    let number = integer as u64;
    if least <= number && number <= most {
        Some(number)
    } else {
        None
    }
}

/// The number at a key, or `usual` if the key is absent. `None` if the value is not an integer within these
/// bounds.
fn number_under(table: &Table, key: Key, least: u64, most: u64, usual: u64) -> Option<u64>
    ensures { result ≡ number_under key least most usual (table_view table.now) }
{
    match value_at(table, key) {
        Some(value) => number_in(value, least, most),
        None => Some(usual),
    }
}

/// The flag at a key, or `false` if the key is absent. `None` if the value is not a boolean.
fn flag_under(table: &Table, key: Key) -> Option<bool>
    ensures { result ≡ flag_under key (table_view table.now) }
{
    match value_at(table, key) {
        Some(value) => value.as_bool(),
        None => Some(false),
    }
}

/// Whether there is a setting with this name.
fn is_known(name: &str) -> bool
    ensures { result ≡ is_known name.now }
{
    name == "socket"
        || name == "store"
        || name == "connections"
        || name == "format"
        || name == "accepts"
        || name == "turns"
}

/// Whether every key is the name of a setting.
fn has_known_keys(table: &Table) -> bool
    ensures { result ≡ has_known_keys (table_view table.now) }
{
    for (name, _) in table {
        if !is_known(name.as_str()) {
            return false;
        }
    }
    true
}

/// The settings in a table.
fn settings_in(alloc: Global, table: &Table) -> Result<Settings, SettingsFault>
    ensures settings { IfOk result (IsSettingsOf (table_view table.now)) }
    ensures refused { IfErr result (RefusesDocument (table_view table.now)) }
{
    let socket = text_at(table, Key::Socket).ok_or(SettingsFault::Setting(Key::Socket))?;
    let store = text_at(table, Key::Store).ok_or(SettingsFault::Setting(Key::Store))?;
    let connections = number_under(
        table,
        Key::Connections,
        1,
        MOST_CONNECTIONS,
        USUAL_CONNECTIONS,
    )
    .ok_or(SettingsFault::Setting(Key::Connections))?;
    let format = flag_under(table, Key::Format).ok_or(SettingsFault::Setting(Key::Format))?;
    let accepts = number_under(table, Key::Accepts, 0, MOST_ACCEPTS, 0).ok_or(
        SettingsFault::Setting(Key::Accepts),
    )?;
    let turns = number_under(table, Key::Turns, 1, MOST_TURNS, USUAL_TURNS).ok_or(
        SettingsFault::Setting(Key::Turns),
    )?;
    if !has_known_keys(table) {
        return Err(SettingsFault::UnknownKey);
    }
    let (Ok(socket), Ok(store)) = (
        String::from_str(alloc, socket),
        String::from_str(alloc, store),
    ) else {
        return Err(SettingsFault::Memory);
    };
    Ok(Settings {
        socket,
        store,
        connections,
        format,
        accepts,
        turns,
    })
}

/// Reads the settings from a text (`docs/settings.md`). The error is `NotToml` if the text is not a TOML
/// document; otherwise `Setting` with the first key, in the order of the fields, that is required and missing
/// or has a wrong value; otherwise `UnknownKey` if there is any other key; or `Memory` if memory runs out.
pub fn read_settings(alloc: Global, text: &str) -> Result<Settings, SettingsFault>
    ensures settings { IfOk result (λ settings. (document : Members)
        × (parse_document text.now ≡ Some document)
        × IsSettingsOf document settings) }
    ensures refused { IfErr result (RefusesText text.now) }
{
    match toml::table_from_str(alloc, text) {
        Ok(table) => settings_in(alloc, &table),
        Err(error) if error.is_memory() => Err(SettingsFault::Memory),
        Err(_) => Err(SettingsFault::NotToml),
    }
}
