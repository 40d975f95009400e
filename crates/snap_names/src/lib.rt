//! The names of recordings: those in a list, and those below a folder. What opens a text by its name, and names as they are shown.
#![tactic(auto)]

mod fault;
mod folders;
mod list;
mod opener;
mod said;
mod shown;
mod system;
mod texts;
mod walk;

pub use fault::NamesFault;
pub use folders::{Entry, Folders, Kind};
pub use list::{LIST_LIMIT, names_in, read_names};
pub use opener::{Lengths, Opener, Trouble};
pub use said::{name_lines, reason_line, trouble_line, trouble_words};
pub use shown::put_shown;
pub use system::SystemFolders;
pub use texts::{System, SystemText};
pub use walk::{FOLDER_LIMIT, names_below};
