//! The configuration of a schedule that is to be made.
ghost use Rattle.std.specs.Prelude.{◌≡◌, ◌<◌, Ok, Err, MatchResult};
ghost use Rattle.cluster_config.specs.Lines.{GivesLine};
ghost use Rattle.cluster_config.specs.Columns.{read_by, read_text};
ghost use Rattle.cluster_config.specs.Drive.{drive_column, planned};

use crate::lines::{Lines, WrongLine};
use ritas_base::{Mode, Plan};

// The lines of a plan, to the end of the text.
#[tactic(auto, using(crate::proofs::Parts::read_session, crate::proofs::Parts::read_numbers, crate::proofs::Parts::read_copies), unfolding(crate::specs::Columns::read_by, crate::specs::Drive::drive_column))]
fn read_plan(lines: &mut Lines<'_>) -> Result<Plan, WrongLine>
    requires { lines.old.number < 4294967000 }
    ensures { GivesLine planned result lines.new (read_by drive_column lines.old) }
{
    let (version, session) = lines.session()?;
    let p = lines.numbers()?;
    let root = lines.number("root", 1, 7)? as u8;
    let vect = lines.vect("vect")?;
    let master = lines.key("master")?;
    let order = lines.order("order")?;
    let attack = lines.attack("attack")?;
    let start_number = lines.number("start", 0, u64::MAX)?;
    let commands = lines.number("commands", 0, 10000)? as u32;
    let copies = lines.copies(p.n())?;
    Ok(Plan {
        session,
        p,
        mode: Mode {
            root,
            vect,
            version,
        },
        master,
        order,
        attack,
        start_number,
        commands,
        copies,
    })
}

/// The plan that a text says, or its first line that is wrong or missing.
#[tactic(auto, unfolding(crate::specs::Columns::read_text))]
pub(crate) fn read_drive(text: &[u8]) -> Result<Plan, WrongLine>
    ensures { MatchResult result (λ plan. read_text drive_column text.now ≡ Ok (planned plan)) (λ wrong. read_text drive_column text.now ≡ Err wrong.line) }
{
    read_plan(&mut Lines::new(text))
}
