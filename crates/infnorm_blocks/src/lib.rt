// The one-pass inf-norm factors from the maxima, block by block.
#![tactic(auto)]

ghost use Rattle.std.specs.Prelude.{◌≡◌, map, length};
ghost use Rattle.root_blocks.specs.inner.Blocks.{Roots};
ghost use Rattle.infnorm_factors.specs.Factors as Factors;

// Each maximum of a block becomes the factor of its row.
fn scale_block(maxima: &mut [f64], roots: &[f64])
    requires maxima_len { (length maxima.old ≡ 16) × (length roots.now ≡ 16) }
    requires roots { Roots maxima.old 0 roots.now 16 }
    ensures { maxima.new ≡ map Factors.inv_sqrt_scale_guarded maxima.old }
{
    for i in 0..root_blocks::BLOCK {
        maxima[i] = infnorm_factors::inv_sqrt_scale_guarded(maxima[i], roots[i]);
    }
}

// The same of the rows after the last block.
fn scale_rest(maxima: &mut [f64])
    ensures { maxima.new ≡ map Factors.inv_sqrt_scale_guarded maxima.old }
{
    for m in maxima {
        *m = infnorm_factors::inv_sqrt_scale_guarded(*m, root_blocks::root(*m));
    }
}

// Each maximum becomes the factor of its row.
pub fn scale_rows(maxima: &mut [f64])
    ensures { maxima.new ≡ map Factors.inv_sqrt_scale_guarded maxima.old }
{
    let mut roots = [0.0; root_blocks::BLOCK];
    let blocks = maxima.len() / root_blocks::BLOCK;
    for i in 0..blocks {
        let from = i * root_blocks::BLOCK;
        let block = &mut maxima[from..from + root_blocks::BLOCK];
        root_blocks::roots_of(block, 0, &mut roots);
        scale_block(block, &roots);
    }
    scale_rest(&mut maxima[blocks * root_blocks::BLOCK..]);
}
