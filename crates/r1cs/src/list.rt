// A list of items with their witnesses and their circuit.
ghost use Rattle.std.specs.Prelude.{◌≡◌, ◌*◌, ◌≤◌, ◌<◌, length};
ghost use Rattle.theory.specs.Fp.{item_size, item_part, witness_part};

use crate::circuit::Circuit;
use crate::sizes::Sizes;

// l items, their witnesses and their circuit, with the lengths of check 2.
#[derive(Clone, Copy)]
pub struct List<'a> {
    pub sizes: Sizes,
    pub l: usize,
    pub circuit: Circuit<'a>,
    pub items: &'a [u8],
    pub wits: &'a [u8],
    ghost l_least: { 1 ≤ l },
    ghost l_most: { l ≤ 8 },
    ghost items_length: { length items.now ≡ l * item_size sizes.m sizes.n },
    ghost wits_length: { length wits.now ≡ l * (4 * sizes.k) },
}

impl List<'_> {
    // Item i.
    pub fn item(&self, i: usize) -> &[u8]
        requires { i < self.now.l }
        ensures { result.now ≡ item_part self.now.sizes.m self.now.sizes.n self.now.items.now i }
    {
        let size = self.sizes.item_size();
        &self.items[i * size..(i + 1) * size]
    }

    // Witness i.
    pub fn wit(&self, i: usize) -> &[u8]
        requires { i < self.now.l }
        ensures { result.now ≡ witness_part self.now.sizes.k self.now.wits.now i }
    {
        let size = 4 * self.sizes.k;
        &self.wits[i * size..(i + 1) * size]
    }
}
