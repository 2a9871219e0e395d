//! The profile of a run, in a file.

use crate::request::RunRequest;
use mte_svc::TenantParts;
use run_profile::{ProfileFile, RunProfile};
use run_terms::Failure;
use std::io;
use tenant_run::WholeFile;

/// Writes the profile of a run of an image into the file that is named, if one is.
pub fn write_profile<'a>(
    request: &RunRequest<'a, '_>,
    image: &str,
    parts: &TenantParts,
    profile: Option<&RunProfile<'_>>,
) -> Result<(), Failure<'a>> {
    let (Some(name), Some(profile)) = (&request.options.output.profile, profile) else {
        return Ok(());
    };
    let account = ProfileFile {
        profile,
        name: image,
        steps: parts.history.steps,
    };
    let name = name.as_str();
    write_file(request.rt, &account, name).map_err(|error| Failure::of_write(&error, name))
}

/// Writes a profile into the file with a name.
fn write_file(rt: &HostRuntime, account: &ProfileFile<'_, '_>, name: &str) -> io::Result<()> {
    let mut file = WholeFile::create(rt, name)?;
    let written = account.write(rt.alloc(), &mut file);
    file.conclude(rt, written)
}
