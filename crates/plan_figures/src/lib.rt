//! Points, polygons, their triangles and sums, scenes, and certificates in them: tables of what each is, has and is
//! refused for. There are only tests here.
#![tactic(auto)]

#[cfg(test)]
mod bound;
#[cfg(test)]
mod check;
#[cfg(test)]
mod clip;
#[cfg(test)]
mod convex;
#[cfg(test)]
mod cross;
#[cfg(test)]
mod given;
#[cfg(test)]
mod grid;
#[cfg(test)]
mod poly;
#[cfg(test)]
mod scene;
#[cfg(test)]
mod tri;
