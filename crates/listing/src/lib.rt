// Code 9, each thing's listing being in its slot, and the run count: one loop for each kind of thing.
#![tactic(auto)]

ghost use Rattle.std.specs.Prelude.{◌≡◌, ◌<◌};
ghost use Rattle.ground.specs.Judged.{first_bad};
ghost use Rattle.layout.specs.Small.{AllSmall};
ghost use Rattle.elements.specs.Slots.{slot_listing};
ghost use Rattle.image.specs.declared.ElementKind.TheVariants as kind;
ghost use Rattle.things.specs.Things.{run_count};
ghost use Rattle.listing.specs.Listing.{things_judged, listed_judged};
ghost use Rattle.listing.specs.Computed.{lacks, slot_lacks, Ready, walked};

use elements::{slot_of, slot_word};
use image::ElementKind;
use layout::Tables;
use rows::Rows;

// Whether a thing that is listed so touches a row that its listing lacks.
fn lacks(image: &[u32], ts: Tables, slot: u32, touched: Option<Rows>) -> bool
    requires { AllSmall ts }
    ensures { result ≡ lacks image.now ts (slot_listing slot) touched }
{
    let Some(rows) = touched else {
        return false;
    };
    if slot == 0 {
        return true;
    }
    let k = ground::number(slot - 1);
    let first = ground::number(elements::first_row(image, ts, k));
    let last = ground::number(elements::last_row(image, ts, k));
    !rows.within(first, last)
}

// The same of thing k of the kind of this number, whose listing is in its slot.
fn slot_lacks(
    image: &[u32],
    ts: Tables,
    slots: &[u32],
    number: u32,
    k: usize,
    touched: Option<Rows>,
) -> bool
    requires { AllSmall ts × (k < 4294967296) }
    ensures { result ≡ slot_lacks image.now ts slots.now number k touched }
{
    lacks(image, ts, slot_word(slots, slot_of(number, k)), touched)
}

// Code 9 for the nodes.
fn unlisted_node(image: &[u32], ts: Tables, slots: &[u32]) -> Option<usize>
    requires { Ready image.now ts slots.now }
    ensures { result ≡ first_bad (things_judged kind.Node image.now ts) }
{
    let sheet = things::sheet_of(image);
    let header = image::header_of(image);
    let show = header.show_dummies;
    let number = u32::from(ElementKind::Node);
    let nodes = ts.nodes;
    ground::first_found(nodes.count, |k| {
        let touched = things::node_touched(image, ts, sheet, show, k);
        slot_lacks(image, ts, slots, number, k, touched).then_some(layout::record_at(nodes, k))
    })
}

// Code 9 for the subgraphs.
fn unlisted_subgraph(image: &[u32], ts: Tables, slots: &[u32]) -> Option<usize>
    requires { Ready image.now ts slots.now }
    ensures { result ≡ first_bad (things_judged kind.Subgraph image.now ts) }
{
    let sheet = things::sheet_of(image);
    let number = u32::from(ElementKind::Subgraph);
    let subgraphs = ts.subgraphs;
    ground::first_found(subgraphs.count, |k| {
        let touched = things::subgraph_touched(image, ts, sheet, k);
        slot_lacks(image, ts, slots, number, k, touched).then_some(layout::record_at(subgraphs, k))
    })
}

// Code 9 for the edges, and the run count where there is no such edge, in one walk.
fn walk_edges(image: &[u32], ts: Tables, slots: &[u32]) -> Result<usize, usize>
    requires { Ready image.now ts slots.now }
    ensures { result ≡ walked (first_bad (things_judged kind.Edge image.now ts)) (run_count image.now ts) }
{
    let sheet = things::sheet_of(image);
    let number = u32::from(ElementKind::Edge);
    let edges = ts.edges;
    let mut runs: usize = 0;
    for k in 0..edges.count {
        let reach = things::edge_reach(image, ts, sheet, k);
        if slot_lacks(image, ts, slots, number, k, reach.rows) {
            return Err(layout::record_at(edges, k));
        }
        runs += reach.runs;
    }
    Ok(runs)
}

// Code 9, "nodes, edges, subgraphs in turn": the place of the first thing that touches a row which its listing lacks; or the run count, where there is none.
pub fn walk_things(image: &[u32], ts: Tables, slots: &[u32]) -> Result<usize, usize>
    requires { Ready image.now ts slots.now }
    ensures { result ≡ walked (first_bad (listed_judged image.now ts)) (run_count image.now ts) }
{
    if let Some(place) = unlisted_node(image, ts, slots) {
        return Err(place);
    }
    let runs = walk_edges(image, ts, slots)?;
    if let Some(place) = unlisted_subgraph(image, ts, slots) {
        return Err(place);
    }
    Ok(runs)
}
