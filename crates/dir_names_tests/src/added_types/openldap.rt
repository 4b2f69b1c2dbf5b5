//! Types as OpenLDAP's schema files have them.

/// From core, cosine, nis and inetorgperson, with the rules and counts of values that RFC 4519, 4524, 2307 and 2798 give
/// them, as rows of `added_types`. A rule that this kit doesn't tell apart is `Octet`.
pub(super) static OPENLDAP: [&str; 23] = [
    "( 2.5.4.15 NAME 'businessCategory'\tDESC 'RFC2256: business category'\tEQUALITY caseIgnoreMatch\tSUBSTR caseIgnoreSubstringsMatch\tSYNTAX 1.3.6.1.4.1.1466.115.121.1.15{128} ) | businessCategory | businessCategory | CaseIgnore known many",
    "( 2.5.4.16 NAME 'postalAddress'\tDESC 'RFC2256: postal address'\tEQUALITY caseIgnoreListMatch\tSUBSTR caseIgnoreListSubstringsMatch\tSYNTAX 1.3.6.1.4.1.1466.115.121.1.41 ) | postalAddress | postalAddress | Octet known many",
    "( 2.5.4.17 NAME 'postalCode'\tDESC 'RFC2256: postal code'\tEQUALITY caseIgnoreMatch\tSUBSTR caseIgnoreSubstringsMatch\tSYNTAX 1.3.6.1.4.1.1466.115.121.1.15{40} ) | postalCode | postalCode | CaseIgnore known many",
    "( 2.5.4.23 NAME ( 'facsimileTelephoneNumber' 'fax' )\tDESC 'RFC2256: Facsimile (Fax) Telephone Number'\tSYNTAX 1.3.6.1.4.1.1466.115.121.1.22 ) | fax | facsimileTelephoneNumber | Octet known many",
    "( 2.5.4.24 NAME 'x121Address'\tDESC 'RFC2256: X.121 Address'\tEQUALITY numericStringMatch\tSUBSTR numericStringSubstringsMatch\tSYNTAX 1.3.6.1.4.1.1466.115.121.1.36{15} ) | x121Address | x121Address | Octet known many",
    "( 2.5.4.43 NAME 'initials'\tDESC 'RFC2256: initials of some or all of names, but not the surname(s).'\tSUP name ) | initials | initials | CaseIgnore known many",
    "( 2.5.4.46 NAME 'dnQualifier'\tDESC 'RFC2256: DN qualifier'\tEQUALITY caseIgnoreMatch\tORDERING caseIgnoreOrderingMatch\tSUBSTR caseIgnoreSubstringsMatch\tSYNTAX 1.3.6.1.4.1.1466.115.121.1.44 ) | dnQualifier | dnQualifier | CaseIgnore known many",
    "( 2.5.4.50 NAME 'uniqueMember'\tDESC 'RFC2256: unique member of a group'\tEQUALITY uniqueMemberMatch\tSYNTAX 1.3.6.1.4.1.1466.115.121.1.34 ) | uniqueMember | uniqueMember | Octet known many",
    "( 0.9.2342.19200300.100.1.37\tNAME 'associatedDomain'\tDESC 'RFC1274: domain associated with object'\tEQUALITY caseIgnoreIA5Match\tSUBSTR caseIgnoreIA5SubstringsMatch\tSYNTAX 1.3.6.1.4.1.1466.115.121.1.26 ) | associatedDomain | associatedDomain | Ia5CaseIgnore known many",
    "( 0.9.2342.19200300.100.1.5\tNAME ( 'drink' 'favouriteDrink' )\tDESC 'RFC1274: favorite drink'\tEQUALITY caseIgnoreMatch\tSUBSTR caseIgnoreSubstringsMatch\tSYNTAX 1.3.6.1.4.1.1466.115.121.1.15{256} ) | favouriteDrink | drink | CaseIgnore known many",
    "( 0.9.2342.19200300.100.1.6 NAME 'roomNumber'\tDESC 'RFC1274: room number'\tEQUALITY caseIgnoreMatch\tSUBSTR caseIgnoreSubstringsMatch\tSYNTAX 1.3.6.1.4.1.1466.115.121.1.15{256} ) | roomNumber | roomNumber | CaseIgnore known many",
    "( 0.9.2342.19200300.100.1.20\tNAME ( 'homePhone' 'homeTelephoneNumber' )\tDESC 'RFC1274: home telephone number'\tEQUALITY telephoneNumberMatch\tSUBSTR telephoneNumberSubstringsMatch\tSYNTAX 1.3.6.1.4.1.1466.115.121.1.50 ) | homeTelephoneNumber | homePhone | Telephone known many",
    "( 0.9.2342.19200300.100.1.21 NAME 'secretary'\tDESC 'RFC1274: DN of secretary'\tEQUALITY distinguishedNameMatch\tSYNTAX 1.3.6.1.4.1.1466.115.121.1.12 ) | secretary | secretary | Name known many",
    "( 0.9.2342.19200300.100.1.42\tNAME ( 'pager' 'pagerTelephoneNumber' )\tDESC 'RFC1274: pager telephone number'\tEQUALITY telephoneNumberMatch\tSUBSTR telephoneNumberSubstringsMatch\tSYNTAX 1.3.6.1.4.1.1466.115.121.1.50 ) | pager | pager | Telephone known many",
    "( 1.3.6.1.1.1.1.5 NAME 'shadowLastChange'\tEQUALITY integerMatch\tSYNTAX 1.3.6.1.4.1.1466.115.121.1.27 SINGLE-VALUE ) | shadowLastChange | shadowLastChange | Integer known one",
    "( 1.3.6.1.1.1.1.12 NAME 'memberUid'\tEQUALITY caseExactIA5Match\tSUBSTR caseExactIA5SubstringsMatch\tSYNTAX 1.3.6.1.4.1.1466.115.121.1.26 ) | memberUid | memberUid | Ia5CaseExact known many",
    "( 1.3.6.1.1.1.1.19 NAME 'ipHostNumber'\tDESC 'IP address'\tEQUALITY caseIgnoreIA5Match\tSYNTAX 1.3.6.1.4.1.1466.115.121.1.26{128} ) | ipHostNumber | ipHostNumber | Ia5CaseIgnore known many",
    "( 1.3.6.1.1.1.1.23 NAME 'bootParameter'\tDESC 'rpc.bootparamd parameter'\tSYNTAX 1.3.6.1.1.1.0.1 ) | bootParameter | bootParameter | Octet known many",
    "( 2.16.840.1.113730.3.1.1\tNAME 'carLicense'\tDESC 'RFC2798: vehicle license or registration plate'\tEQUALITY caseIgnoreMatch\tSUBSTR caseIgnoreSubstringsMatch\tSYNTAX 1.3.6.1.4.1.1466.115.121.1.15 ) | carLicense | carLicense | CaseIgnore known many",
    "( 2.16.840.1.113730.3.1.2\tNAME 'departmentNumber'\tDESC 'RFC2798: identifies a department within an organization'\tEQUALITY caseIgnoreMatch\tSUBSTR caseIgnoreSubstringsMatch\tSYNTAX 1.3.6.1.4.1.1466.115.121.1.15 ) | departmentNumber | departmentNumber | CaseIgnore known many",
    "( 2.16.840.1.113730.3.1.4\tNAME 'employeeType'\tDESC 'RFC2798: type of employment for a person'\tEQUALITY caseIgnoreMatch\tSUBSTR caseIgnoreSubstringsMatch\tSYNTAX 1.3.6.1.4.1.1466.115.121.1.15 ) | employeeType | employeeType | CaseIgnore known many",
    "( 0.9.2342.19200300.100.1.60\tNAME 'jpegPhoto'\tDESC 'RFC2798: a JPEG image'\tSYNTAX 1.3.6.1.4.1.1466.115.121.1.28 ) | jpegPhoto | jpegPhoto | Octet known many",
    "( 2.16.840.1.113730.3.1.39\tNAME 'preferredLanguage'\tDESC 'RFC2798: preferred written or spoken language for a person'\tEQUALITY caseIgnoreMatch\tSUBSTR caseIgnoreSubstringsMatch\tSYNTAX 1.3.6.1.4.1.1466.115.121.1.15\tSINGLE-VALUE ) | preferredLanguage | preferredLanguage | CaseIgnore known one",
];
