// Code 13: "Values 0000 to 001F and 007F to 009F are no longer glyphs", glyph by glyph.
#![tactic(auto)]

ghost use Rattle.std.specs.Prelude.{◌≡◌};
ghost use Rattle.ground.specs.Judged.{first_bad};
ghost use Rattle.layout.specs.Inside.{Inside};
ghost use Rattle.layout.specs.Layout.{glyph_size};
ghost use Rattle.controls.specs.Controls.{is_control, controls_judged};

use layout::Table;

// Whether a value is a control character, which a terminal or a printer would obey and not print.
pub fn is_control(value: u32) -> bool
    ensures { result ≡ is_control value }
{
    (value <= 0x1F) | ((0x7F <= value) & (value <= 0x9F))
}

// Code 13: the first glyph word that holds one.
pub fn first_control(image: &[u32], glyphs: Table) -> Option<usize>
    requires { Inside image.now glyph_size glyphs }
    ensures { result ≡ first_bad (controls_judged image.now glyphs) }
{
    ground::first_found(glyphs.count, |k| {
        let value = layout::field_inside(image, glyphs, k, layout::GLYPH_VALUE);
        is_control(value).then_some(layout::record_at(glyphs, k))
    })
}
