// Configurations at random.
use lr_rows_read::RandomConf;
use rand_core::utils::NextWord;
use rand_pcg::Pcg32;
use std::alloc::{AllocError, Global};

/// The generator of these configurations.
pub fn generator(random: &RandomConf) -> Pcg32 {
    Pcg32::new(random.seed, 54)
}

/// The next configuration: so many of the parts, or so many bytes where there are none.
pub fn next_conf(
    alloc: Global,
    random: &RandomConf,
    any: &mut Pcg32,
) -> Result<Vec<u8>, AllocError> {
    let mut conf = Vec::new(alloc);
    for _ in 0..random.length {
        let word = any.next_word();
        if random.parts.is_empty() {
            conf.push((word & 0xff) as u8)?;
        } else {
            let place = (word as usize) % random.parts.len();
            conf.extend_from_slice(&random.parts[place])?;
        }
    }
    Ok(conf)
}
