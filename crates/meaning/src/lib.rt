// The types that the definitions in specs/ and the code of rows 3 and 5 share.
#![tactic(auto)]

// Row 3: what may come next. A line of the header, of this place among N, A, Y and declarations or
// a later one; or, in a declaration, so many P lines, then F lines, then C lines, each with its F
// lines, then V.
#[derive(Clone, Copy)]
pub enum Due {
    Header(u32),
    Within {
        params: u32,
        fields: u32,
        ctors: u32,
    },
    Broken,
}

// Row 5: the width of an integer type, a case for each of the source's `iwidth`, in its order.
#[derive(Clone, Copy)]
pub enum Iwidth {
    W8,
    W16,
    W32,
    W64,
    W128,
    WSizet,
}
