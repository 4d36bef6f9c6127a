// What is printed for the certificate of a document.
use plan_wire::{Document, Task, Want, print_certificate, put_certificate, read_document};
use std::alloc::Global;
use std::process::Abort;
use std::test::Fail;

const MEMBERS: &str =
    r#""format":1,"frame":[0,0,20,20],"robot":[[0,0],[1,0],[0,1]],"obstacles":[],"query":[2,2,5,5]"#;

// A document of `check` with this certificate.
fn read(alloc: Global, certificate: &str) -> Result<Document, Fail> {
    let text = format!(in alloc; "{{{MEMBERS},\"certificate\":{certificate}}}")?;
    Ok(read_document(alloc, text.as_bytes(), Want::Check)?)
}

// What is printed for the certificate of the document; a document without one is refused.
fn printed(alloc: Global, document: &Document) -> Result<Vec<u8>, Fail> {
    match &document.task {
        Task::Proof { certificate, .. } => Ok(print_certificate(alloc, certificate)?),
        _ => Err(Fail::from("no certificate")),
    }
}

// The same behind other bytes.
fn put_behind(alloc: Global, bytes: &[u8], document: &Document) -> Result<Vec<u8>, Fail> {
    let mut line = Vec::from_slice(alloc, bytes)?;
    match &document.task {
        Task::Proof { certificate, .. } => put_certificate(&mut line, certificate)?,
        _ => return Err(Fail::from("no certificate")),
    }
    Ok(line)
}

fn expect(rt: &impl Abort, text: &[u8], wanted: &str) {
    assert_eq!(rt; text, wanted.as_bytes(), "{wanted}");
}

// Certificates as they are given, and as they are printed.
const CERTIFICATES: &str = r#"{"path":[]}|{"path":[]}
{"chain":[]}|{"chain":[]}
{"path":[[2,2,1],[5,5,1]]}|{"path":[[2,2,1],[5,5,1]]}
{ "path" : [ [4, 4, 2], [-9, 0, 3], [-10, 5, 15] ] }|{"path":[[2,2,1],[-3,0,1],[-2,1,3]]}
{"path":[[4607182418800017407,-4607182418800017408,2251799813685248]]}|{"path":[[4607182418800017407,-4607182418800017408,2251799813685248]]}
{"other":[],"chain":[[5,5,1,2,4,4],[-2046,2046,1,10,-7,1000]]}|{"chain":[[5,5,1,1,2,2],[-2046,2046,1,10,-7,1000]]}"#;

#[test]
fn a_certificate_is_printed_in_lowest_terms_and_without_spaces(
    rt: HostRuntime,
) -> Result<(), Fail> {
    for row in CERTIFICATES.lines() {
        let Some((given, wanted)) = row.split_once('|') else {
            return Err(Fail::from("a column is missing"));
        };
        for certificate in [given, wanted] {
            let document = read(rt.alloc(), certificate)?;
            let text = printed(rt.alloc(), &document)?;
            expect(&rt, text.as_slice(), wanted);
        }
    }
    Ok(())
}

#[test]
fn a_certificate_goes_behind_what_was_put_before(rt: HostRuntime) -> Result<(), Fail> {
    let document = read(rt.alloc(), r#"{"chain":[[5,5,1,2,4,4]]}"#)?;
    let line = put_behind(rt.alloc(), b"blocked ", &document)?;
    expect(&rt, line.as_slice(), r#"blocked {"chain":[[5,5,1,1,2,2]]}"#);
    Ok(())
}
