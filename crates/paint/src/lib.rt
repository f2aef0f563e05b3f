// The public calls of painting: a band of any image, plain or coloured. Every image, row number and lent length is answered; a refusal changes no word of any lent buffer.
#![tactic(auto)]

ghost use Rattle.std.specs.Prelude.{◌≡◌};
ghost use Rattle.refusals.specs.FirstBroken.{first_broken};
ghost use Rattle.refusals.specs.Rules.{rules};
ghost use Rattle.picture.specs.Painted.{plain_verdict, coloured_verdict, painted, painted_coloured};
ghost use Rattle.paint.specs.Outcome.{outcome_of};

use refusals::Refusal;

pub mod accepted;

// "Check and paint answer a code and a place".
#[derive(Clone, Copy)]
pub struct Outcome {
    // 0 where the band was painted, else the code of the first rule that is broken
    pub code: u32,
    // where it is broken, 0 where the band was painted
    pub place: usize,
}

// "Accepted: code 0, place 0."
pub fn outcome_of(verdict: Result<(), Refusal>) -> Outcome
    ensures { result ≡ outcome_of verdict }
{
    match verdict {
        Ok(()) => Outcome { code: 0, place: 0 },
        Err(refusal) => Outcome {
            code: refusal.code,
            place: refusal.place,
        },
    }
}

// The codes of the check.
pub fn image_verdict(image: &[u32]) -> Result<(), Refusal>
    ensures { result ≡ first_broken (rules image.now) }
{
    match refusals::accept(image) {
        Ok(_) => Ok(()),
        Err(refusal) => Err(refusal),
    }
}

// The codes of the check, then 11 and 12 of a plain band.
pub fn plain_verdict(
    image: &[u32],
    first: usize,
    rows: usize,
    cells: &[u32],
    scratch: &[u32],
) -> Result<(), Refusal>
    ensures { result ≡ plain_verdict image.now first rows cells.now scratch.now }
{
    image_verdict(image)?;
    lending::check_plain(image, first, rows, cells, scratch)
}

// "Plain paint takes cells and scratch".
pub fn paint(
    image: &[u32],
    first: usize,
    rows: usize,
    cells: &mut [u32],
    scratch: &mut [u32],
) -> Outcome
    ensures value { result ≡ outcome_of (painted image.now first rows cells.old scratch.old).verdict }
    ensures cells_after { cells.new ≡ (painted image.now first rows cells.old scratch.old).cells }
    ensures scratch_after { scratch.new ≡ (painted image.now first rows cells.old scratch.old).scratch }
{
    let verdict = plain_verdict(image, first, rows, cells, scratch);
    let Ok(()) = verdict else {
        return outcome_of(verdict);
    };
    accepted::paint_plain(image, first, rows, cells, scratch);
    outcome_of(verdict)
}

// The codes of the check, then 11 and 12 of a coloured band.
pub fn coloured_verdict(
    image: &[u32],
    first: usize,
    rows: usize,
    cells: &[u32],
    colours: &[u32],
    stamps: &[u32],
    scratch: &[u32],
) -> Result<(), Refusal>
    ensures { result ≡ coloured_verdict image.now first rows cells.now colours.now stamps.now scratch.now }
{
    image_verdict(image)?;
    lending::check_coloured(image, first, rows, cells, colours, stamps, scratch)
}

// "coloured paint also colours and stamps"
pub fn paint_coloured(
    image: &[u32],
    first: usize,
    rows: usize,
    cells: &mut [u32],
    colours: &mut [u32],
    stamps: &mut [u32],
    scratch: &mut [u32],
) -> Outcome
    ensures value { result ≡ outcome_of (painted_coloured image.now first rows cells.old colours.old stamps.old scratch.old).verdict }
    ensures cells_after { cells.new ≡ (painted_coloured image.now first rows cells.old colours.old stamps.old scratch.old).cells }
    ensures colours_after { colours.new ≡ (painted_coloured image.now first rows cells.old colours.old stamps.old scratch.old).colours }
    ensures stamps_after { stamps.new ≡ (painted_coloured image.now first rows cells.old colours.old stamps.old scratch.old).stamps }
    ensures scratch_after { scratch.new ≡ (painted_coloured image.now first rows cells.old colours.old stamps.old scratch.old).scratch }
{
    let verdict = coloured_verdict(image, first, rows, cells, colours, stamps, scratch);
    let Ok(()) = verdict else {
        return outcome_of(verdict);
    };
    accepted::paint_planes(image, first, rows, cells, colours, stamps, scratch);
    outcome_of(verdict)
}
