// Sorts an expression by its shape: the arms of those without operands, and then, for each operator, a
// call of the function for so many operands, with what the call hands on.
macro_rules! by_shape {
    ($alloc:ident, $expr:ident, $env:ident, { $($without:tt)* }, $one:ident, $two:ident, $choice:ident) => {
        match $expr {
            $($without)*
            Expr::Add(a, b) => $two($alloc, Binary::Add, a.get(), b.get(), $env),
            Expr::Sub(a, b) => $two($alloc, Binary::Sub, a.get(), b.get(), $env),
            Expr::Mul(a, b) => $two($alloc, Binary::Mul, a.get(), b.get(), $env),
            Expr::Eq(a, b) => $two($alloc, Binary::Eq, a.get(), b.get(), $env),
            Expr::Ne(a, b) => $two($alloc, Binary::Ne, a.get(), b.get(), $env),
            Expr::Lt(a, b) => $two($alloc, Binary::Lt, a.get(), b.get(), $env),
            Expr::Le(a, b) => $two($alloc, Binary::Le, a.get(), b.get(), $env),
            Expr::And(a, b) => $two($alloc, Binary::And, a.get(), b.get(), $env),
            Expr::Or(a, b) => $two($alloc, Binary::Or, a.get(), b.get(), $env),
            Expr::Not(a) => $one($alloc, Unary::Not, a.get(), $env),
            Expr::If(a, b, c) => $choice($alloc, a.get(), b.get(), c.get(), $env),
            Expr::Concat(a, b) => $two($alloc, Binary::Concat, a.get(), b.get(), $env),
            Expr::Append(a, b) => $two($alloc, Binary::Append, a.get(), b.get(), $env),
            Expr::Contains(a, b) => $two($alloc, Binary::Contains, a.get(), b.get(), $env),
            Expr::Len(a) => $one($alloc, Unary::Len, a.get(), $env),
            Expr::Show(a) => $one($alloc, Unary::Show, a.get(), $env),
            Expr::Uuid5(a, b) => $two($alloc, Binary::Uuid5, a.get(), b.get(), $env),
        }
    };
}

pub(crate) use by_shape;
