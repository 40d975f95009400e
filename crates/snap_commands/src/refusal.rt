//! What is said about a history with too few views.
ghost use Rattle.std.specs.Prelude.{◌≡◌};

use snap_check::Status;

/// Says that a history has too few views, and gives its status.
pub fn too_few_views(host: &HostRuntime, views: u32) -> Status
    ensures { result ≡ Status.Refused }
{
    let _ = eprintln!(host; "refused: fewer than {} views", views);
    Status::Refused
}
