// The bounds between which roots are sought.
ghost use Rattle.float.specs.Promises.Order.{Span};

// Bounds of an interval that can be bisected: floats within ±4, in order.
#[derive(Clone, Copy)]
pub struct Bounds {
    pub lower: f64,
    pub upper: f64,
    ghost span: { Span 2 lower upper },
}
