// A member of a cascade.

// A device, a bit-plane table, or nothing: a vacant member has no rows and is as wide as any table
// can be, so that it changes no join.
#[derive(Drop)]
pub enum Member<D, P> {
    Device(D),
    Planes(P),
    Vacant,
}
