// The setup of a made record.
ghost use Rattle.std.specs.Prelude.{◌≡◌, ◌∷◌, ◌++◌, [], IfOk};
ghost use Rattle.record_format.specs.Config.{plane};
ghost use Rattle.record_format.specs.MadeRecord.{made_guest, made_guests, made_setup};

use desk_laws::{GuestSetup, Guests, Name, Outputs, Pairs, Setup};
use gui_num::{Colour, NoMemory, Rect};
use std::alloc::Global;

// The guests, and one more behind them.
fn with_guest(mut guests: Guests, letter: u8, colour: u32) -> Result<Guests, NoMemory>
    ensures { IfOk result (λ g. g ≡ guests ++ made_guest letter colour ∷ []) }
{
    guests.push(GuestSetup {
        colour: Colour(colour),
        name: Name::new(&[letter]),
    })?;
    Ok(guests)
}

fn made_guests(alloc: Global) -> Result<Guests, NoMemory>
    ensures { IfOk result (λ g. g ≡ made_guests) }
{
    let guests = with_guest(Guests::new(alloc), b'a', 0xff_0000)?;
    let guests = with_guest(guests, b'b', 0x00_ff00)?;
    let guests = with_guest(guests, b'c', 0x00_00ff)?;
    with_guest(guests, b'd', 0xff_ff00)
}

// The whole plane as the one output.
fn made_outputs(alloc: Global) -> Result<Outputs, NoMemory>
    ensures { IfOk result (λ o. o ≡ plane 640 480 ∷ []) }
{
    let mut outputs = Outputs::new(alloc);
    outputs.push(Rect {
        x: 0,
        y: 0,
        w: 640,
        h: 480,
    })?;
    Ok(outputs)
}

// The setup that every made record has.
#[tactic(auto, unfolding(crate::specs::MadeRecord::made_setup))]
pub(crate) fn made_setup(alloc: Global) -> Result<Setup, NoMemory>
    ensures { IfOk result (λ s. s ≡ made_setup) }
{
    let guests = made_guests(alloc)?;
    let outputs = made_outputs(alloc)?;
    Ok(Setup {
        width: 640,
        height: 480,
        border: 2,
        pages: 64,
        tiles: 64,
        percent: 90,
        background: Colour(0x20_2020),
        guests,
        outputs,
        clip: 1,
        denied: Pairs::new(alloc),
    })
}
