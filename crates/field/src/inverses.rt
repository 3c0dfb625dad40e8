// The inverses of the small numbers, as a table.
ghost use Rattle.std.specs.Prelude.{◌≡◌, ◌<◌};
ghost use Rattle.field.specs.BabyBear.{val, ofℕ, inv};
ghost use Rattle.field.specs.Inverses.{small_inverses};

// The inverse of each number below 64 at its index, and 0 at 0.
const INVERSE_TABLE: [u32; 64] = [
    0, 1, 1006632961, 1342177281, 1509949441, 1610612737, 1677721601, 862828252, 1761607681,
    447392427, 1811939329, 549072524, 1845493761, 464599828, 431414126, 1879048193, 1887436801,
    947419257, 1230329174, 1589420464, 1912602625, 1629786698, 274536262, 1050399611, 1929379841,
    1530082100, 232299914, 149130809, 215707063, 347114814, 1946157057, 64944062, 1950351361,
    854112815, 1480342589, 1380525203, 615164587, 707363702, 794710232, 1497043890, 1962934273,
    343728328, 814893349, 468201377, 137268131, 1297438038, 1531832766, 1670582360, 1971322881,
    1273698848, 765041050, 315806419, 116149957, 417847644, 1081198365, 512467689, 1114486492,
    1871984102, 173557407, 1842650165, 1979711489, 1188156937, 32472031, 1214350873,
];

// The inverses of the numbers below 64, taken from the constant once: each read of the constant copies the whole.
#[derive(Clone, Copy)]
pub struct Inverses {
    table: [u32; 64],
    ghost of_each: { table ≡ small_inverses },
}

impl Inverses {
    pub fn new() -> Self {
        Inverses {
            table: INVERSE_TABLE,
        }
    }

    // The inverse of n.
    pub fn of(&self, n: usize) -> u32
        requires { n < 64 }
        ensures { result ≡ val (inv (ofℕ n)) }
    {
        self.table[n]
    }
}
