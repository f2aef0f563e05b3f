// Codes 2 and 4: what a word of the header or of a record holds, and what it may hold.
ghost use Rattle.std.specs.Prelude.{◌≤◌, ◌<◌};

use crate::names;
use layout::RecordKind;
use std::io;
use word_rules::WordRule;

// Flags whose bits below the one of this value are spare.
fn say_flags(rt: &impl Print, value: u32, lowest: u32) -> io::Result<()> {
    if lowest == 0 {
        return Ok(());
    }
    let spare = value % lowest;
    let last = lowest.trailing_zeros();
    print!(rt;
        ": holds {value:08X}; spare bits {spare:08X} must be 0, in use are bits 31 to {last}"
    )
}

fn say_edge_flags(rt: &impl Print, flags: u32) -> io::Result<()> {
    let faults = word_rules::flag_faults(flags);
    print!(rt; ": holds {flags:08X}")?;
    if faults.path {
        let path = edge_rules::path_number(flags);
        print!(rt; "; path is {path}, may be 0 to 5 (bits 31 to 29)")?;
    }
    if faults.weight {
        print!(rt; "; weight is 0, may be 1 to 3 (bits 24 and 23)")?;
    }
    let spare = faults.spare;
    if spare != 0 {
        print!(rt; "; spare bits {spare:08X} must be 0, in use are bits 31 to 22")?;
    }
    Ok(())
}

// An index that is not below a table's count.
fn say_below(rt: &impl Print, of: RecordKind, index: u32, held: usize) -> io::Result<()> {
    let name = names::record(of);
    if held == 0 {
        print!(rt; ": holds {index}; the image has no {name}")
    } else {
        print!(rt; ": holds {index}; must be below {held}, the number of {name}s")
    }
}

// A span that leaves its table.
fn say_span(
    rt: &impl Print,
    of: RecordKind,
    start: u32,
    count: u32,
    held: usize,
) -> io::Result<()> {
    let end = ground::number(start) + ground::number(count);
    let name = names::record(of);
    print!(rt;
        ": hold {start} and {count}, together {end}; together may be at most {held}, the number of {name}s"
    )
}

// What a word holds, and what it may hold by its rule.
fn say_rule(rt: &impl Print, rule: WordRule, value: u32) -> io::Result<()> {
    match rule {
        WordRule::Below { of, held } => say_below(rt, of, value, held),
        WordRule::Span { of, count, held } => say_span(rt, of, value, count, held),
        WordRule::Flags(lowest) => say_flags(rt, value, lowest),
        WordRule::EdgeFlags => say_edge_flags(rt, value),
        WordRule::Within => print!(rt; ": holds {value}; may hold 0 to 32767"),
        WordRule::Zero => print!(rt; ": holds {value}; must be 0"),
        WordRule::Kind => {
            print!(rt; ": holds {value}; may hold 0 (node), 1 (edge) or 2 (subgraph)")
        }
        WordRule::Scalar => {
            print!(rt; ": holds {value:04X}; may hold 0000 to D7FF or E000 to 10FFFF")
        }
        WordRule::RangeEnd => print!(rt; ": holds {value:04X}; may hold 0000 to 10FFFF"),
        _ => print!(rt; ": holds {value}; may hold 0 or 2"),
    }
}

// What of an edge's flags decides the rule of a field.
fn why_edge(rt: &impl Print, flags: u32, field: usize) -> io::Result<()> {
    match field {
        layout::EDGE_A | layout::EDGE_B | layout::EDGE_C => {
            let path = edge_rules::path_number(flags);
            let Some(name) = names::path(path) else {
                return Ok(());
            };
            print!(rt; ", as path {name}{}", names::path_word(path, field))
        }
        layout::EDGE_LABEL_START | layout::EDGE_LABEL_COUNT => {
            let bit = names::bit(layout::flag(flags, layout::LABEL_PRESENT));
            print!(rt; ", as the label bit (22) of its flags is {bit}")
        }
        _ => Ok(()),
    }
}

// What of a node's flags decides the rule of a field.
fn why_node(rt: &impl Print, flags: u32, field: usize) -> io::Result<()> {
    match field {
        layout::NODE_LOOP_X | layout::NODE_LOOP_Y => {
            let bit = names::bit(layout::flag(flags, layout::SELF_LOOP));
            print!(rt; ", as the self-loop bit (29) of its flags is {bit}")
        }
        _ => Ok(()),
    }
}

// The name of the field; of a span both its fields.
fn say_field(rt: &impl Print, rule: WordRule, kind: RecordKind, field: usize) -> io::Result<()>
    requires { field ≤ 16 }
{
    print!(rt; ", {}", names::field(kind, field))?;
    if matches!(rule, WordRule::Span { .. }) {
        print!(rt; " and {}", names::field(kind, field + 1))?;
    }
    Ok(())
}

// A field of record k of a kind.
pub fn explain(
    rt: &impl Print,
    image: &[u32],
    kind: RecordKind,
    k: usize,
    field: usize,
) -> io::Result<()>
    requires { (k < 4294967296) × (field ≤ 16) }
{
    let rule = word_rules::rule_of(image, kind, k, field);
    say_field(rt, rule, kind, field)?;
    say_rule(rt, rule, finding::field_of(image, kind, k, field))?;
    match kind {
        RecordKind::Node => why_node(
            rt,
            finding::field_of(image, kind, k, layout::NODE_FLAGS),
            field,
        ),
        RecordKind::Edge => why_edge(
            rt,
            finding::field_of(image, kind, k, layout::EDGE_FLAGS),
            field,
        ),
        _ => Ok(()),
    }
}

// The most that a word of the header may be.
fn header_limit(field: usize) -> u32 {
    match field {
        layout::HEADER_WIDTH => layout::MAX_WIDTH,
        layout::HEADER_HEIGHT => layout::MAX_HEIGHT,
        layout::HEADER_RUNS => layout::MAX_RUNS,
        layout::HEADER_ELEMENTS => layout::MAX_ELEMENTS,
        layout::HEADER_POINTS => layout::MAX_POINTS,
        layout::HEADER_GLYPHS => layout::MAX_GLYPHS,
        layout::HEADER_RANGES => layout::MAX_RANGES,
        _ => layout::MAX_THINGS,
    }
}

// A word of the header.
pub fn explain_header(rt: &impl Print, field: usize, value: u32) -> io::Result<()> {
    print!(rt; "header, {}", names::header_field(field))?;
    if field == layout::HEADER_FLAGS {
        say_flags(rt, value, layout::HEADER_SPARE)?;
    } else {
        print!(rt; ": holds {value}; may hold 0 to {}", header_limit(field))?;
    }
    print!(rt; "\n")
}
