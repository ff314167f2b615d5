// Whose orders: those of the vans, which are of gates, or those of the gates, which are of vans.
#[derive(Clone, Copy, Debug, PartialEq, Eq)]
pub enum Side {
    Vans,
    Gates,
}
