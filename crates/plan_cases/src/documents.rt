use std::alloc::Global;
use std::process::Abort;

/// A robot of width and height 1, with its right angle at the placement.
pub const CORNER: &str = "[[0,0],[1,0],[0,1]]";

/// A spike from the floor up to (9, 10). The corner robot touches it from (8, -5) to (11, -5), up to (8, 10) and (9, 10).
pub const SPIKE: &str = r#"[{"id":1,"shape":[[9,-5],[11,-5],[9,10]]}]"#;

/// A document in a frame of 20 by 20.
pub fn document(
    rt: &impl Abort,
    alloc: Global,
    robot: &str,
    obstacles: &str,
    query: &str,
    certificate: &str,
) -> String {
    format!(in alloc;
        "{{\"format\":1,\"frame\":[0,0,20,20],\"robot\":{robot},\"obstacles\":{obstacles},\"query\":{query},\"certificate\":{certificate}}}"
    ).expect(rt, "memory")
}

/// The text of a path or a chain.
pub fn certificate_of(rt: &impl Abort, alloc: Global, kind: &str, points: &str) -> String {
    format!(in alloc; "{{\"{kind}\":{points}}}").expect(rt, "memory")
}

/// A document of `plan` in the same frame.
pub fn plan_document(
    rt: &impl Abort,
    alloc: Global,
    robot: &str,
    obstacles: &str,
    queries: &str,
) -> String {
    format!(in alloc;
        "{{\"format\":1,\"frame\":[0,0,20,20],\"robot\":{robot},\"obstacles\":{obstacles},\"queries\":{queries}}}"
    ).expect(rt, "memory")
}

/// The document of one point, which is clear. It has 166 bytes.
pub fn one_point(rt: &impl Abort, alloc: Global) -> String {
    document(
        rt,
        alloc,
        CORNER,
        SPIKE,
        "[2,2,2,2]",
        "{\"path\":[[2,2,1]]}",
    )
}
