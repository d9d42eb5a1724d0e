// Laws of the definitions in specs/. Each function does nothing, and its contract is the law.
ghost use Rattle.cover_cert.specs.Laws.{RowsHaveTheirNumbers, YesIsSaidOfCertificates, CertificatesListCovers};

/// In a relation as it was read a pair names two different rows by numbers from 1 to that of its rows.
pub fn rows_have_their_numbers()
    ensures { RowsHaveTheirNumbers }
{}

/// Yes is said exactly of the certificates of the rows.
pub fn yes_is_said_of_certificates()
    ensures { YesIsSaidOfCertificates }
{}

/// A certificate lists all minimal keys and dependencies of the rows and nothing else, whoever made it.
pub fn certificates_list_covers()
    ensures { CertificatesListCovers }
{}
