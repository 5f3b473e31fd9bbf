// A template for each part of an area.
ghost use Rattle.std.specs.Prelude.{◌≡◌, true, [], map};
ghost use Rattle.out.specs.Text.{Writes};
ghost use Rattle.out.specs.Fill.{fill, is_template};
ghost use Rattle.out.specs.Items.{parts, each, joined, unless as Items·unless};

use super::emit::Text;
use text::part::{part, place};

impl Text<'_> {
    // Writes the template t for each part, one after the other.
    pub fn lines(&mut self, t: &[u8], area: &[u8], spans: &[u32])
        requires { is_template 1 t.now ≡ true }
        ensures { Writes self.old (each (λ x. fill t.now x [] [] [] []) (parts area.now spans.now)) self.new }
    {
        // Counted by hand: two places make a part, so an iterator over places is no plainer.
        let mut i = 0;
        while i + 1 < spans.len() {
            let x = part(area, place(spans, i), place(spans, i + 1));
            self.fill1(t, x);
            i += 2;
        }
    }

    // Writes s, but nothing at index 0.
    pub fn unless(&mut self, i: usize, s: &[u8])
        ensures { Writes self.old (Items·unless i s.now) self.new }
    {
        if i != 0 {
            self.put(s);
        }
    }

    // Writes the template t for each part, joined by sep.
    pub fn joins(&mut self, sep: &[u8], t: &[u8], area: &[u8], spans: &[u32])
        requires { is_template 1 t.now ≡ true }
        ensures { Writes self.old (joined sep.now (map (λ x. fill t.now x [] [] [] []) (parts area.now spans.now))) self.new }
    {
        // Counted by hand, as above.
        let mut i = 0;
        while i + 1 < spans.len() {
            self.unless(i, sep);
            let x = part(area, place(spans, i), place(spans, i + 1));
            self.fill1(t, x);
            i += 2;
        }
    }
}
