// The runs of devices and of joins of devices, for callers in C.
#![tactic(auto)]

#[unsafe(no_mangle)]
pub extern "C" fn device_searches(
    words: &mut [u32],
    marks: &mut [u8],
    width: u32,
    rounds: u32,
    seed: u32,
) -> u32 {
    bench_device::device_searches(words, marks, width, rounds, seed)
}

#[unsafe(no_mangle)]
pub extern "C" fn cascade_searches(
    words: &mut [u32],
    marks: &mut [u8],
    devices: u32,
    rounds: u32,
    seed: u32,
) -> u32 {
    bench_device::cascade_searches(words, marks, devices, rounds, seed)
}

#[unsafe(no_mangle)]
pub extern "C" fn cascade_first_hits(
    words: &mut [u32],
    marks: &mut [u8],
    devices: u32,
    hit: bool,
    rounds: u32,
) -> u32 {
    bench_device::cascade_first_hits(words, marks, devices, hit, rounds)
}
