//! The program's command line (`docs/commands.md`, "Commands"), and a server's settings (`docs/settings.md`).
#![tactic(auto)]

mod command_line;
mod key;
mod reading;
mod settings;
mod settings_fault;

pub use command_line::{Invocation, arguments, not_text};
pub use key::Key;
pub use reading::read_settings;
pub use settings::Settings;
pub use settings_fault::SettingsFault;
