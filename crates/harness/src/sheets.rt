// The claims listing of a sheet.
ghost use Rattle.std.specs.Prelude.{◌≡◌, cond, length};
ghost use Rattle.theory.specs.Sizes.{has_length};
ghost use Rattle.scan.specs.Sheet.{filled};
ghost use Rattle.listing.specs.Listing.{listing};

// Writes the listing from the front of a buffer of 2,122 bytes, and returns its length.
#[unsafe(no_mangle)]
pub extern "C" fn lomvuze_test_listing(sheet: &[u8], out: &mut [u8]) -> usize
    ensures length { result ≡ cond (has_length out.old 2122) (length (listing sheet.now)) 0 }
    ensures out { out.new ≡ cond (has_length out.old 2122) (filled (listing sheet.now) out.old) out.old }
{
    listing::listing::write(sheet, out)
}
