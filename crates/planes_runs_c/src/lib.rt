// The runs of the plane table, for callers in C.
#![tactic(auto)]

#[unsafe(no_mangle)]
pub extern "C" fn planes_searches(rounds: u32, seed: u32) -> u32 {
    planes_runs::planes_searches(rounds, seed)
}
