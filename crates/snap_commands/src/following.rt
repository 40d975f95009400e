//! The check of a recording that grows.
ghost use Rattle.std.specs.Prelude.{◌≡◌, unwrap_or};

use crate::failure::Failure;
use crate::files::{say_trouble, system};
use crate::names::{say, say_none};
use crate::outlet::Outlet;
use crate::refusal::too_few_views;
use snap_check::RunFault;
use snap_core::{Counted, Limit};
use snap_follow::{
    FileText, FolderTexts, FollowFault, FollowOptions, Followed, Lost, OneText, Reason, Texts,
    Until, follow_run,
};
use snap_names::{Opener, SystemFolders, Trouble};
use snap_words::Windows;
use std::io::Read;
use std::sync::Wait;

// The failure of a run that follows, as that of any run. It says if there is no text.
fn failure_of<W>(host: &HostRuntime, fault: FollowFault, outlet: &Outlet<W>) -> Failure {
    let fault = match fault {
        FollowFault::NoText => return say_none(host),
        FollowFault::Read => RunFault::Read,
        FollowFault::Write => RunFault::Write,
        FollowFault::Memory => RunFault::Memory,
    };
    Failure::of_run(fault, outlet)
}

// Says which name could not be followed further, and why.
fn say_lost(host: &HostRuntime, lost: &Lost) {
    match lost.reason {
        Reason::Unopened(trouble) => say_trouble(host, &lost.name, trouble),
        Reason::Late => say(host, &lost.name, "came too late: a later name is read"),
        Reason::Changed => say(host, &lost.name, "has changed after a later file began"),
        Reason::Shorter => say(host, &lost.name, "has become shorter"),
        Reason::TooManyFolders => say(host, &lost.name, "has more than 1048576 folders"),
    }
}

// Whether a name is that of standard input.
fn is_input(name: &[u8]) -> bool {
    name == b"-".as_slice()
}

// How long a recording is followed. Standard input is followed to its end, and any other until nothing has come for `windows.idle`
// seconds, or for ever if that is 0.
fn until_of(name: &[u8], windows: Windows) -> Until {
    if is_input(name) {
        Until::End
    } else if windows.idle == 0 {
        Until::Ever
    } else {
        Until::Idle(windows.idle)
    }
}

// The exit status of a recording that was followed. It says on standard error how it ended.
fn code_of(host: &HostRuntime, followed: Followed, windows: Windows) -> u8
    ensures { result ≡ unwrap_or followed.code 3 }
{
    if let Some(lost) = &followed.lost {
        say_lost(host, lost);
    }
    if followed.has_rest {
        let _ = eprintln!(host; "snapjudge: the last line has no end, and is left out");
    }
    match followed.code {
        Some(code) => code,
        None => too_few_views(host, windows.views).code(),
    }
}

fn follow_texts<Rt: Wait, T: Texts>(
    rt: &Rt,
    host: &HostRuntime,
    texts: &mut T,
    name: &[u8],
    limit: Limit,
    windows: Windows,
) -> Result<u8, Failure> {
    let mut writer = Counted::new(Outlet::new(host.stdout()));
    let options = FollowOptions {
        least: windows.least,
        most: limit,
        late: windows.late,
        until: until_of(name, windows),
        views: windows.views,
    };
    match follow_run(rt, host.alloc(), texts, &mut writer, host, options) {
        Ok(followed) => Ok(code_of(host, followed, windows)),
        Err(fault) => Err(failure_of(host, fault, &writer.into_inner())),
    }
}

// Follows one text, which must not become shorter. Standard input has no length.
fn follow_text<Rt: Wait, R: Read + Drop>(
    rt: &Rt,
    host: &HostRuntime,
    text: R,
    name: &[u8],
    limit: Limit,
    windows: Windows,
) -> Result<u8, Failure> {
    if is_input(name) {
        return follow_texts(rt, host, &mut OneText::new(text), name, limit, windows);
    }
    let opener = system(host);
    let mut texts = FileText::new(text, &opener, name);
    follow_texts(rt, host, &mut texts, name, limit, windows)
}

// Follows the texts below a folder.
fn follow_folder<Rt: Wait>(
    rt: &Rt,
    host: &HostRuntime,
    folder: &[u8],
    limit: Limit,
    windows: Windows,
) -> Result<u8, Failure> {
    let folders = SystemFolders { files: host };
    let opener = system(host);
    let mut texts = FolderTexts::new(host.alloc(), &folders, &opener, folder);
    follow_texts(rt, host, &mut texts, folder, limit, windows)
}

/// Follows a file, all files below a folder, or standard input if the name is absent. A window has at most as many events as the
/// limit says. It says if it leaves out the end of the recording.
pub fn follow<Rt: Wait>(
    rt: &Rt,
    host: &HostRuntime,
    file: &Option<Vec<u8>>,
    limit: Limit,
    windows: Windows,
) -> Result<u8, Failure> {
    let name = match file {
        Some(name) => name.as_slice(),
        None => b"-".as_slice(),
    };
    match system(host).open(name) {
        Ok(text) => follow_text(rt, host, text, name, limit, windows),
        Err(Trouble::Folder) => follow_folder(rt, host, name, limit, windows),
        Err(trouble) => {
            say_trouble(host, name, trouble);
            Err(Failure::Unopened)
        }
    }
}
