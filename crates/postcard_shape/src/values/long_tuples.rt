//! The shapes of tuples of thirteen to sixteen parts: that of their first eight and of the others,
//! whose bytes are those of the parts in a row.

use crate::shape::{Repr, Shaped};

impl<
    A: Shaped,
    B: Shaped,
    C: Shaped,
    D: Shaped,
    E: Shaped,
    G: Shaped,
    H: Shaped,
    I: Shaped,
    J: Shaped,
    K: Shaped,
    L: Shaped,
    M: Shaped,
    N: Shaped,
> Repr for (A, B, C, D, E, G, H, I, J, K, L, M, N) {
    type As = ((A, B, C, D, E, G, H, I), (J, K, L, M, N));

    ghost repr = { λ (a, (b, (c, (d, (e, (f, (g, (h, (i, (j, (k, (l, (m, _))))))))))))). (
      (a, b, c, d, e, f, g, h),
      (i, j, k, l, m),
    ) };
}

impl<
    A: Shaped,
    B: Shaped,
    C: Shaped,
    D: Shaped,
    E: Shaped,
    G: Shaped,
    H: Shaped,
    I: Shaped,
    J: Shaped,
    K: Shaped,
    L: Shaped,
    M: Shaped,
    N: Shaped,
    O: Shaped,
> Repr for (A, B, C, D, E, G, H, I, J, K, L, M, N, O) {
    type As = ((A, B, C, D, E, G, H, I), (J, K, L, M, N, O));

    ghost repr = { λ (a, (b, (c, (d, (e, (f, (g, (h, (i, (j, (k, (l, (m, (n, _)))))))))))))). (
      (a, b, c, d, e, f, g, h),
      (i, j, k, l, m, n),
    ) };
}

impl<
    A: Shaped,
    B: Shaped,
    C: Shaped,
    D: Shaped,
    E: Shaped,
    G: Shaped,
    H: Shaped,
    I: Shaped,
    J: Shaped,
    K: Shaped,
    L: Shaped,
    M: Shaped,
    N: Shaped,
    O: Shaped,
    P: Shaped,
> Repr for (A, B, C, D, E, G, H, I, J, K, L, M, N, O, P) {
    type As = ((A, B, C, D, E, G, H, I), (J, K, L, M, N, O, P));

    ghost repr = { λ (a, (b, (c, (d, (e, (f, (g, (h, (i, (j, (k, (l, (m, (n, (o, _))))))))))))))). (
      (a, b, c, d, e, f, g, h),
      (i, j, k, l, m, n, o),
    ) };
}

impl<
    A: Shaped,
    B: Shaped,
    C: Shaped,
    D: Shaped,
    E: Shaped,
    G: Shaped,
    H: Shaped,
    I: Shaped,
    J: Shaped,
    K: Shaped,
    L: Shaped,
    M: Shaped,
    N: Shaped,
    O: Shaped,
    P: Shaped,
    Q: Shaped,
> Repr for (A, B, C, D, E, G, H, I, J, K, L, M, N, O, P, Q) {
    type As = ((A, B, C, D, E, G, H, I), (J, K, L, M, N, O, P, Q));

    ghost repr = { λ (a, (b, (c, (d, (e, (f, (g, (h, (i, (j, (k, (l, (m, (n, (o, (p, _)))))))))))))))). (
      (a, b, c, d, e, f, g, h),
      (i, j, k, l, m, n, o, p),
    ) };
}
