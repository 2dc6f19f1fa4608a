// The end of the padding: a 1 bit that ends the block.
ghost use Rattle.std.specs.Prelude.{◌≡◌, bit_xor, slice_index, slice_set};

pub(crate) fn add_last_bit(block: &mut [u8; 136])
    ensures { block.new ≡ slice_set block.old 135 (bit_xor (slice_index block.old 135) 0x80) }
{
    block[135] ^= 0x80;
}
