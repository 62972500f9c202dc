//! Tuples of one to twelve parts: written as the parts in order, with no count before them.
//!
//! A tuple passes its parts to a function with a parameter for each. This is for the prover, whose
//! work for a tuple within a tuple increases fast with its length.

ghost use Rattle.postcard_ser.specs.{WritesRow, no_part, part, then};

use crate::serialize::Serialize;
use crate::serializer::Serializer;
use postcard_ser_flavors::Flavor;
use postcard_wire::Result;

fn serialize_both<P: Serialize, Q: Serialize, F: Flavor>(
    first: &P,
    second: &Q,
    serializer: &mut Serializer<F>,
) -> Result<()>
    ensures { WritesRow F.Flavor serializer.old.output
        (then P.shape (then Q.shape no_part))
        (part first.now (part second.now tt))
        result serializer.new.output }
{
    first.serialize(serializer)?;
    second.serialize(serializer)
}

fn serialize_three<P: Serialize, Q: Serialize, R: Serialize, F: Flavor>(
    first: &P,
    second: &Q,
    third: &R,
    serializer: &mut Serializer<F>,
) -> Result<()>
    ensures { WritesRow F.Flavor serializer.old.output
        (then P.shape (then Q.shape (then R.shape no_part)))
        (part first.now (part second.now (part third.now tt)))
        result serializer.new.output }
{
    first.serialize(serializer)?;
    serialize_both(second, third, serializer)
}

fn serialize_four<P: Serialize, Q: Serialize, R: Serialize, S: Serialize, F: Flavor>(
    first: &P,
    second: &Q,
    third: &R,
    fourth: &S,
    serializer: &mut Serializer<F>,
) -> Result<()>
    ensures { WritesRow F.Flavor serializer.old.output
        (then P.shape (then Q.shape (then R.shape (then S.shape no_part))))
        (part first.now (part second.now (part third.now (part fourth.now tt))))
        result serializer.new.output }
{
    first.serialize(serializer)?;
    serialize_three(second, third, fourth, serializer)
}

pub(super) fn serialize_five<
    P: Serialize,
    Q: Serialize,
    R: Serialize,
    S: Serialize,
    T: Serialize,
    F: Flavor,
>(
    first: &P,
    second: &Q,
    third: &R,
    fourth: &S,
    fifth: &T,
    serializer: &mut Serializer<F>,
) -> Result<()>
    ensures { WritesRow F.Flavor serializer.old.output
        (then P.shape (then Q.shape (then R.shape (then S.shape (then T.shape no_part)))))
        (part first.now (part second.now (part third.now (part fourth.now (part fifth.now tt)))))
        result serializer.new.output }
{
    first.serialize(serializer)?;
    serialize_four(second, third, fourth, fifth, serializer)
}

pub(super) fn serialize_six<
    P: Serialize,
    Q: Serialize,
    R: Serialize,
    S: Serialize,
    T: Serialize,
    U: Serialize,
    F: Flavor,
>(
    first: &P,
    second: &Q,
    third: &R,
    fourth: &S,
    fifth: &T,
    sixth: &U,
    serializer: &mut Serializer<F>,
) -> Result<()>
    ensures { WritesRow F.Flavor serializer.old.output
        (then P.shape (then Q.shape (then R.shape (then S.shape (then T.shape (then U.shape
        no_part))))))
        (part first.now (part second.now (part third.now (part fourth.now (part fifth.now
        (part sixth.now tt))))))
        result serializer.new.output }
{
    first.serialize(serializer)?;
    serialize_five(second, third, fourth, fifth, sixth, serializer)
}

pub(super) fn serialize_seven<
    P: Serialize,
    Q: Serialize,
    R: Serialize,
    S: Serialize,
    T: Serialize,
    U: Serialize,
    V: Serialize,
    F: Flavor,
>(
    first: &P,
    second: &Q,
    third: &R,
    fourth: &S,
    fifth: &T,
    sixth: &U,
    seventh: &V,
    serializer: &mut Serializer<F>,
) -> Result<()>
    ensures { WritesRow F.Flavor serializer.old.output
        (then P.shape (then Q.shape (then R.shape (then S.shape (then T.shape (then U.shape
        (then V.shape no_part)))))))
        (part first.now (part second.now (part third.now (part fourth.now (part fifth.now
        (part sixth.now (part seventh.now tt)))))))
        result serializer.new.output }
{
    first.serialize(serializer)?;
    serialize_six(second, third, fourth, fifth, sixth, seventh, serializer)
}

pub(super) fn serialize_eight<
    P: Serialize,
    Q: Serialize,
    R: Serialize,
    S: Serialize,
    T: Serialize,
    U: Serialize,
    V: Serialize,
    W: Serialize,
    F: Flavor,
>(
    first: &P,
    second: &Q,
    third: &R,
    fourth: &S,
    fifth: &T,
    sixth: &U,
    seventh: &V,
    eighth: &W,
    serializer: &mut Serializer<F>,
) -> Result<()>
    ensures { WritesRow F.Flavor serializer.old.output
        (then P.shape (then Q.shape (then R.shape (then S.shape (then T.shape (then U.shape
        (then V.shape (then W.shape no_part))))))))
        (part first.now (part second.now (part third.now (part fourth.now (part fifth.now
        (part sixth.now (part seventh.now (part eighth.now tt))))))))
        result serializer.new.output }
{
    first.serialize(serializer)?;
    serialize_seven(
        second, third, fourth, fifth, sixth, seventh, eighth, serializer,
    )
}

fn serialize_nine<
    P: Serialize,
    Q: Serialize,
    R: Serialize,
    S: Serialize,
    T: Serialize,
    U: Serialize,
    V: Serialize,
    W: Serialize,
    X: Serialize,
    F: Flavor,
>(
    first: &P,
    second: &Q,
    third: &R,
    fourth: &S,
    fifth: &T,
    sixth: &U,
    seventh: &V,
    eighth: &W,
    ninth: &X,
    serializer: &mut Serializer<F>,
) -> Result<()>
    ensures { WritesRow F.Flavor serializer.old.output
        (then P.shape (then Q.shape (then R.shape (then S.shape (then T.shape (then U.shape
        (then V.shape (then W.shape (then X.shape no_part)))))))))
        (part first.now (part second.now (part third.now (part fourth.now (part fifth.now
        (part sixth.now (part seventh.now (part eighth.now (part ninth.now tt)))))))))
        result serializer.new.output }
{
    first.serialize(serializer)?;
    serialize_eight(
        second, third, fourth, fifth, sixth, seventh, eighth, ninth, serializer,
    )
}

fn serialize_ten<
    P: Serialize,
    Q: Serialize,
    R: Serialize,
    S: Serialize,
    T: Serialize,
    U: Serialize,
    V: Serialize,
    W: Serialize,
    X: Serialize,
    Y: Serialize,
    F: Flavor,
>(
    first: &P,
    second: &Q,
    third: &R,
    fourth: &S,
    fifth: &T,
    sixth: &U,
    seventh: &V,
    eighth: &W,
    ninth: &X,
    tenth: &Y,
    serializer: &mut Serializer<F>,
) -> Result<()>
    ensures { WritesRow F.Flavor serializer.old.output
        (then P.shape (then Q.shape (then R.shape (then S.shape (then T.shape (then U.shape
        (then V.shape (then W.shape (then X.shape (then Y.shape no_part))))))))))
        (part first.now (part second.now (part third.now (part fourth.now (part fifth.now
        (part sixth.now (part seventh.now (part eighth.now (part ninth.now (part tenth.now
        tt))))))))))
        result serializer.new.output }
{
    first.serialize(serializer)?;
    serialize_nine(
        second, third, fourth, fifth, sixth, seventh, eighth, ninth, tenth, serializer,
    )
}

fn serialize_eleven<
    P: Serialize,
    Q: Serialize,
    R: Serialize,
    S: Serialize,
    T: Serialize,
    U: Serialize,
    V: Serialize,
    W: Serialize,
    X: Serialize,
    Y: Serialize,
    Z: Serialize,
    F: Flavor,
>(
    first: &P,
    second: &Q,
    third: &R,
    fourth: &S,
    fifth: &T,
    sixth: &U,
    seventh: &V,
    eighth: &W,
    ninth: &X,
    tenth: &Y,
    eleventh: &Z,
    serializer: &mut Serializer<F>,
) -> Result<()>
    ensures { WritesRow F.Flavor serializer.old.output
        (then P.shape (then Q.shape (then R.shape (then S.shape (then T.shape (then U.shape
        (then V.shape (then W.shape (then X.shape (then Y.shape (then Z.shape no_part)))))))))))
        (part first.now (part second.now (part third.now (part fourth.now (part fifth.now
        (part sixth.now (part seventh.now (part eighth.now (part ninth.now (part tenth.now
        (part eleventh.now tt)))))))))))
        result serializer.new.output }
{
    first.serialize(serializer)?;
    serialize_ten(
        second, third, fourth, fifth, sixth, seventh, eighth, ninth, tenth, eleventh, serializer,
    )
}

fn serialize_twelve<
    P: Serialize,
    Q: Serialize,
    R: Serialize,
    S: Serialize,
    T: Serialize,
    U: Serialize,
    V: Serialize,
    W: Serialize,
    X: Serialize,
    Y: Serialize,
    Z: Serialize,
    A: Serialize,
    F: Flavor,
>(
    first: &P,
    second: &Q,
    third: &R,
    fourth: &S,
    fifth: &T,
    sixth: &U,
    seventh: &V,
    eighth: &W,
    ninth: &X,
    tenth: &Y,
    eleventh: &Z,
    twelfth: &A,
    serializer: &mut Serializer<F>,
) -> Result<()>
    ensures { WritesRow F.Flavor serializer.old.output
        (then P.shape (then Q.shape (then R.shape (then S.shape (then T.shape (then U.shape
        (then V.shape (then W.shape (then X.shape (then Y.shape (then Z.shape (then A.shape
        no_part))))))))))))
        (part first.now (part second.now (part third.now (part fourth.now (part fifth.now
        (part sixth.now (part seventh.now (part eighth.now (part ninth.now (part tenth.now
        (part eleventh.now (part twelfth.now tt))))))))))))
        result serializer.new.output }
{
    first.serialize(serializer)?;
    serialize_eleven(
        second, third, fourth, fifth, sixth, seventh, eighth, ninth, tenth, eleventh, twelfth,
        serializer,
    )
}

impl<A: Serialize> Serialize for (A,) {
    fn serialize<F: Flavor>(&self, serializer: &mut Serializer<F>) -> Result<()> {
        serializer.serialize_element(&self.0)
    }
}

impl<A: Serialize, B: Serialize> Serialize for (A, B) {
    fn serialize<F: Flavor>(&self, serializer: &mut Serializer<F>) -> Result<()> {
        serialize_both(&self.0, &self.1, serializer)
    }
}

impl<A: Serialize, B: Serialize, C: Serialize> Serialize for (A, B, C) {
    fn serialize<F: Flavor>(&self, serializer: &mut Serializer<F>) -> Result<()> {
        serialize_three(&self.0, &self.1, &self.2, serializer)
    }
}

impl<A: Serialize, B: Serialize, C: Serialize, D: Serialize> Serialize for (A, B, C, D) {
    fn serialize<F: Flavor>(&self, serializer: &mut Serializer<F>) -> Result<()> {
        serialize_four(&self.0, &self.1, &self.2, &self.3, serializer)
    }
}

impl<A: Serialize, B: Serialize, C: Serialize, D: Serialize, E: Serialize> Serialize
    for (A, B, C, D, E) {
    fn serialize<F: Flavor>(&self, serializer: &mut Serializer<F>) -> Result<()> {
        serialize_five(&self.0, &self.1, &self.2, &self.3, &self.4, serializer)
    }
}

impl<A: Serialize, B: Serialize, C: Serialize, D: Serialize, E: Serialize, G: Serialize> Serialize
    for (A, B, C, D, E, G) {
    fn serialize<F: Flavor>(&self, serializer: &mut Serializer<F>) -> Result<()> {
        serialize_six(
            &self.0, &self.1, &self.2, &self.3, &self.4, &self.5, serializer,
        )
    }
}

impl<
    A: Serialize,
    B: Serialize,
    C: Serialize,
    D: Serialize,
    E: Serialize,
    G: Serialize,
    H: Serialize,
> Serialize for (A, B, C, D, E, G, H) {
    fn serialize<F: Flavor>(&self, serializer: &mut Serializer<F>) -> Result<()> {
        serialize_seven(
            &self.0, &self.1, &self.2, &self.3, &self.4, &self.5, &self.6, serializer,
        )
    }
}

impl<
    A: Serialize,
    B: Serialize,
    C: Serialize,
    D: Serialize,
    E: Serialize,
    G: Serialize,
    H: Serialize,
    I: Serialize,
> Serialize for (A, B, C, D, E, G, H, I) {
    fn serialize<F: Flavor>(&self, serializer: &mut Serializer<F>) -> Result<()> {
        serialize_eight(
            &self.0, &self.1, &self.2, &self.3, &self.4, &self.5, &self.6, &self.7, serializer,
        )
    }
}

impl<
    A: Serialize,
    B: Serialize,
    C: Serialize,
    D: Serialize,
    E: Serialize,
    G: Serialize,
    H: Serialize,
    I: Serialize,
    J: Serialize,
> Serialize for (A, B, C, D, E, G, H, I, J) {
    fn serialize<F: Flavor>(&self, serializer: &mut Serializer<F>) -> Result<()> {
        let (first, second, third, fourth, fifth, sixth, seventh, eighth, ninth) = self;
        serialize_nine(
            first, second, third, fourth, fifth, sixth, seventh, eighth, ninth, serializer,
        )
    }
}

impl<
    A: Serialize,
    B: Serialize,
    C: Serialize,
    D: Serialize,
    E: Serialize,
    G: Serialize,
    H: Serialize,
    I: Serialize,
    J: Serialize,
    K: Serialize,
> Serialize for (A, B, C, D, E, G, H, I, J, K) {
    fn serialize<F: Flavor>(&self, serializer: &mut Serializer<F>) -> Result<()> {
        let (first, second, third, fourth, fifth, sixth, seventh, eighth, ninth, tenth) = self;
        serialize_ten(
            first, second, third, fourth, fifth, sixth, seventh, eighth, ninth, tenth, serializer,
        )
    }
}

impl<
    A: Serialize,
    B: Serialize,
    C: Serialize,
    D: Serialize,
    E: Serialize,
    G: Serialize,
    H: Serialize,
    I: Serialize,
    J: Serialize,
    K: Serialize,
    L: Serialize,
> Serialize for (A, B, C, D, E, G, H, I, J, K, L) {
    fn serialize<F: Flavor>(&self, serializer: &mut Serializer<F>) -> Result<()> {
        let (first, second, third, fourth, fifth, sixth, seventh, eighth, ninth, tenth, eleventh) =
            self;
        serialize_eleven(
            first, second, third, fourth, fifth, sixth, seventh, eighth, ninth, tenth, eleventh,
            serializer,
        )
    }
}

impl<
    A: Serialize,
    B: Serialize,
    C: Serialize,
    D: Serialize,
    E: Serialize,
    G: Serialize,
    H: Serialize,
    I: Serialize,
    J: Serialize,
    K: Serialize,
    L: Serialize,
    M: Serialize,
> Serialize for (A, B, C, D, E, G, H, I, J, K, L, M) {
    fn serialize<F: Flavor>(&self, serializer: &mut Serializer<F>) -> Result<()> {
        let (
            first,
            second,
            third,
            fourth,
            fifth,
            sixth,
            seventh,
            eighth,
            ninth,
            tenth,
            eleventh,
            twelfth,
        ) = self;
        serialize_twelve(
            first, second, third, fourth, fifth, sixth, seventh, eighth, ninth, tenth, eleventh,
            twelfth, serializer,
        )
    }
}
