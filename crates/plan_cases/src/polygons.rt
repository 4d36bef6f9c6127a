use crate::documents::CORNER;
use crate::paths::answers;

/// A robot like an L, and a square block that fits into its notch: robot and block are apart while the placement's
/// coordinates are below 7.
const ANGLE: &str = "[[0,0],[3,0],[3,1],[1,1],[1,3],[0,3]]";

const BLOCK: &str = r#"[{"id":4,"shape":[[8,8],[10,8],[10,10],[8,10]]}]"#;

const IN_THE_NOTCH: &str = r#"[6,6,6,6] [[6,6,1],[27,27,4],[6,6,1]] 0 "valid\n"
[6,6,6,6] [[6,6,1],[7,7,1],[6,6,1]] 6 "invalid: touches 0\n"
[6,6,6,6] [[6,6,1],[6,7,1],[6,6,1]] 6 "invalid: touches 0\n"
[6,6,4,4] [[6,6,1],[4,4,1]] 0 "valid\n""#;

/// The same robot filled up, which touches the block.
const FILLED: &str = "[[0,0],[3,0],[3,1],[1,3],[0,3]]";

const WITHOUT_A_NOTCH: &str = r#"[6,6,4,4] [[6,6,1],[4,4,1]] 6 "invalid: touches 0\n"
[5,5,4,4] [[5,5,1],[4,4,1]] 0 "valid\n""#;

/// A cup that is open above, from x = 8 to 12 and down to y = 8.
const CUP: &str = r#"[{"id":2,"shape":[[4,4],[16,4],[16,16],[12,16],[12,8],[8,8],[8,16],[4,16]]}]"#;

const IN_THE_CUP: &str = r#"[9,18,9,9] [[9,18,1],[9,9,1]] 0 "valid\n"
[9,18,9,8] [[9,18,1],[9,8,1]] 6 "invalid: touches 0\n"
[9,18,11,9] [[9,18,1],[9,9,1],[11,9,1]] 6 "invalid: touches 1\n"
[9,18,10,9] [[9,18,1],[9,9,1],[10,9,1]] 0 "valid\n"
[9,18,2,2] [[9,18,1],[2,18,1],[2,2,1]] 0 "valid\n"
[9,9,2,9] [[9,9,1],[2,9,1]] 6 "invalid: touches 0\n""#;

#[test]
fn robots_and_obstacles_need_not_be_convex(rt: HostRuntime) {
    let alloc = rt.alloc();
    answers(&rt, alloc, ANGLE, BLOCK, IN_THE_NOTCH);
    answers(&rt, alloc, FILLED, BLOCK, WITHOUT_A_NOTCH);
    answers(&rt, alloc, CORNER, CUP, IN_THE_CUP);
}
