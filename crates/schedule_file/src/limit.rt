//! How long a schedule file may be, which `specs/FileBytes.antt` defines.
ghost use Rattle.std.specs.Prelude.{◌≡◌};
ghost use Rattle.schedule_file.specs.FileBytes.{limit};

/// A schedule file has at most so many bytes.
pub const FILE_LIMIT: u32 = 67_108_864;

/// A law: this constant is what the definition says.
///
/// It does nothing: its contract is the law.
pub fn limit_is()
    ensures file { FILE_LIMIT ≡ limit }
{}
