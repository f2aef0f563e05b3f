// The check: codes 1 to 10 of document 01's "Refusals in order" and code 13, which stands between 5 and 6, with place and run count, for every slice of words.
#![tactic(auto)]

ghost use Rattle.std.specs.Prelude.{◌≡◌};
ghost use Rattle.ground.specs.Judged.{first_bad};
ghost use Rattle.layout.specs.Inside.{AllInside};
ghost use Rattle.layout.specs.Small.{AllSmall};
ghost use Rattle.layout.specs.Tables.{tables_of};
ghost use Rattle.listing.specs.Computed.{Ready};
ghost use Rattle.things.specs.Things.{run_count};
ghost use Rattle.refusals.specs.FirstBroken.{Passed, refused_at, first_broken, counted};
ghost use Rattle.refusals.specs.Rules.{ranges_judged, content_rules, form_rules, touch_rules, listing_rules, rules, checked};

use layout::{HEADER_RUNS, HEADER_SIZE, Tables, word};

// "under 12 words"
pub const TOO_SHORT: u32 = 1;

// "header number over its limit or spare bit set"
pub const OVER_LIMIT: u32 = 2;

// "length differs from header plus tables"
pub const WRONG_LENGTH: u32 = 3;

// "a record field breaks its rule; an index or start + count leaves its table"
pub const BAD_FIELD: u32 = 4;

// "a width range has first > last, first not above the last before it, or holds 0020, 0022, 005B or 005D"
pub const BAD_RANGE: u32 = 5;

// "Values 0000 to 001F and 007F to 009F are no longer glyphs", between 5 and 6
pub const CONTROL_CHARACTER: u32 = 13;

// "a MultiSegment corner lies below 0"
pub const CORNER_BELOW_ZERO: u32 = 6;

// "an element names one already listed"
pub const LISTED_TWICE: u32 = 7;

// "first row > last row, or first row below the previous element's"
pub const OUT_OF_ORDER: u32 = 8;

// "a node, edge or subgraph touches a sheet row that its listing lacks (unlisted: any)"
pub const NOT_LISTED: u32 = 9;

// "run capacity below the run count"
pub const TOO_MANY_RUNS: u32 = 10;

// A rule that is broken.
#[derive(Clone, Copy)]
pub struct Refusal {
    // its code
    pub code: u32,
    // the place of the first thing that breaks it
    pub place: usize,
}

// "Check and paint answer a code and a place; check adds the run count, 0 on refusal."
#[derive(Clone, Copy)]
pub struct Answer {
    // 0 for an accepted image, else the code of the first rule that is broken
    pub code: u32,
    // where it is broken, 0 for an accepted image
    pub place: usize,
    // the run count of an accepted image, else 0
    pub runs: usize,
}

// What a rule comes to, by its code and by the first place that breaks it.
fn unless(code: u32, broken: Option<usize>) -> Result<(), Refusal>
    ensures { result ≡ refused_at code broken Passed }
{
    match broken {
        Some(place) => Err(Refusal {
            code: code,
            place: place,
        }),
        None => Ok(()),
    }
}

// Code 5: the first word of the first width range that breaks the rule.
fn bad_range(image: &[u32], ts: Tables) -> Option<usize>
    requires { (ts ≡ tables_of image.now) × AllSmall ts }
    ensures { result ≡ first_bad (ranges_judged image.now ts) }
{
    let k = glyph::first_broken(image::table_words(image, ts.ranges))?;
    Some(layout::record_at(ts.ranges, k))
}

// Codes 4, 5, 13 and 6.
fn check_content(image: &[u32], ts: Tables) -> Result<(), Refusal>
    requires { (ts ≡ tables_of image.now) × AllSmall ts × AllInside image.now ts }
    ensures { result ≡ first_broken (content_rules image.now ts) }
{
    unless(BAD_FIELD, fields::bad_record_field(image, ts))?;
    unless(BAD_RANGE, bad_range(image, ts))?;
    unless(CONTROL_CHARACTER, controls::first_control(image, ts.glyphs))?;
    unless(CORNER_BELOW_ZERO, corners::bad_corner(image, ts))
}

// Codes 1 to 6 and 13: what an image is made of.
pub fn check_form(image: &[u32]) -> Result<(), Refusal>
    ensures { result ≡ first_broken (form_rules image.now) }
{
    if image.len() < HEADER_SIZE {
        return unless(TOO_SHORT, Some(0));
    }
    unless(OVER_LIMIT, header::bad_header(image))?;
    let ts = layout::tables_of(image);
    let wanted = layout::table_end(ts.ranges);
    if image.len() != wanted {
        return unless(WRONG_LENGTH, Some(wanted));
    }
    check_content(image, ts)
}

// Codes 9 and 10, each thing's listing being in its slot; where neither is broken, the run count.
fn check_touched(image: &[u32], ts: Tables, slots: &[u32]) -> Result<usize, Refusal>
    requires { Ready image.now ts slots.now }
    ensures { result ≡ counted (first_broken (touch_rules image.now ts)) (run_count image.now ts) }
{
    let runs = match listing::walk_things(image, ts, slots) {
        Ok(runs) => runs,
        Err(place) => {
            return Err(Refusal {
                code: NOT_LISTED,
                place: place,
            });
        }
    };
    if ground::number(word(image, HEADER_RUNS)) < runs {
        return Err(Refusal {
            code: TOO_MANY_RUNS,
            place: HEADER_RUNS,
        });
    }
    Ok(runs)
}

// Codes 7 to 10: the list of elements, and what it lists; where none is broken, the run count.
pub fn check_listing(image: &[u32], ts: Tables) -> Result<usize, Refusal>
    requires { (ts ≡ tables_of image.now) × AllSmall ts × (first_broken (form_rules image.now) ≡ Passed) }
    ensures { result ≡ counted (first_broken (listing_rules image.now ts)) (run_count image.now ts) }
{
    let mut slots = [0u32; elements::SLOT_COUNT];
    unless(LISTED_TWICE, elements::list_elements(image, ts, &mut slots))?;
    unless(OUT_OF_ORDER, elements::bad_order(image, ts))?;
    check_touched(image, ts, &slots)
}

// The run count of every slice of words that breaks no rule, or the first rule that it breaks.
pub fn accept(image: &[u32]) -> Result<usize, Refusal>
    ensures { result ≡ counted (first_broken (rules image.now)) (run_count image.now (tables_of image.now)) }
{
    check_form(image)?;
    check_listing(image, layout::tables_of(image))
}

// Code, place and run count of every slice of words.
pub fn check(image: &[u32]) -> Answer
    ensures { result ≡ checked image.now }
{
    match accept(image) {
        Ok(runs) => Answer {
            code: 0,
            place: 0,
            runs: runs,
        },
        Err(refusal) => Answer {
            code: refusal.code,
            place: refusal.place,
            runs: 0,
        },
    }
}
