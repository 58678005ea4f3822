//! How far the windows of a service reach, each defined once in `specs/Windows.antt`.
ghost use Rattle.std.specs.Prelude.{◌≡◌};
ghost use Rattle.layer_api.specs.Windows.{command_window, rounds_kept, rounds_ahead};

/// Of an origin's commands so many are in the window, from the least on that isn't finished; where there is a past, so many
/// more are kept behind it.
pub const COMMAND_WINDOW: u32 = 64;

/// Where there is a past, so many rounds are kept behind the current one.
pub const ROUNDS_KEPT: u32 = 2;

/// So many rounds are taken ahead of the current one.
pub const ROUNDS_AHEAD: u32 = 4;

/// A law: these constants are what the definitions say.
///
/// It does nothing: its contract is the law.
pub fn windows_are()
    ensures commands { COMMAND_WINDOW ≡ command_window }
    ensures kept { ROUNDS_KEPT ≡ rounds_kept }
    ensures ahead { ROUNDS_AHEAD ≡ rounds_ahead }
{}
