//! The text of the book, in which each figure has its name, and the rows of a worked year of two schools with their lines.

/// The text of the specimen book, as a desk files it.
pub const BOOK_TEXT: &str = "\
# A year book with figures of the office's own, which are not published ones.\n\
form = 1\n\
year = 2025\n\
\n\
[pell]\n\
maximum = 7395\n\
minimum = 740\n\
\n\
[percent]\n\
maximum_single = 225\n\
maximum_other = 175\n\
minimum_dependent_single = 325\n\
minimum_dependent_other = 275\n\
minimum_single_parent = 400\n\
minimum_parent = 350\n\
minimum_no_dependents = 275\n\
\n\
[poverty]\n\
contiguous = [14580, 19720, 24860, 30000, 35140, 40280, 45420, 50560]\n\
contiguous_extra = 5140\n\
alaska = [18210, 24640, 31070, 37500, 43930, 50360, 56790, 63220]\n\
alaska_extra = 6430\n\
hawaii = [16770, 22680, 28590, 34500, 40410, 46320, 52230, 58140]\n\
hawaii_extra = 5910\n\
\n\
[payroll]\n\
oasdi_cap = 168600\n\
oasdi_rate = 620\n\
medicare_rate = 145\n\
medicare_high = 235\n\
threshold_single = 200000\n\
threshold_married = 250000\n\
\n\
[protection]\n\
parents = [28530, 35510, 43870, 51750, 60540]\n\
parents_extra = 6840\n\
dependent_student = 11770\n\
single_student = 18310\n\
married_student = 29350\n\
single_parent = [53660, 66800, 82500, 97330, 113840]\n\
single_parent_extra = 12860\n\
married_parent = [42800, 53270, 65810, 77630, 90810]\n\
married_parent_extra = 10260\n\
\n\
[employment]\n\
cap = 4730\n\
rate = 3500\n\
\n\
[assets]\n\
parents_rate = 1200\n\
dependent_rate = 2000\n\
no_dependents_rate = 2000\n\
with_dependents_rate = 700\n\
[[business]]\n\
over = 0\n\
base = 0\n\
rate = 4000\n\
[[business]]\n\
over = 165000\n\
base = 66000\n\
rate = 5000\n\
[[business]]\n\
over = 490000\n\
base = 228500\n\
rate = 6000\n\
[[business]]\n\
over = 815000\n\
base = 423500\n\
rate = 10000\n\
[[age]]\n\
from = 0\n\
single = 0\n\
married = 0\n\
[[age]]\n\
from = 26\n\
single = 500\n\
married = 800\n\
[[age]]\n\
from = 40\n\
single = 2500\n\
married = 6000\n\
[[age]]\n\
from = 65\n\
single = 4000\n\
married = 10000\n\
\n\
[schedule]\n\
low_at = -6820\n\
low = -1500\n\
first_rate = 2200\n\
student_rate = 5000\n\
lowest_student = -1500\n\
[[bracket]]\n\
over = 20500\n\
base = 4510\n\
rate = 2500\n\
[[bracket]]\n\
over = 25700\n\
base = 5810\n\
rate = 2900\n\
[[bracket]]\n\
over = 30900\n\
base = 7318\n\
rate = 3400\n\
[[bracket]]\n\
over = 36200\n\
base = 9120\n\
rate = 4000\n\
[[bracket]]\n\
over = 41500\n\
base = 11240\n\
rate = 4700\n";

/// The rows of the worked year, filed behind the book.
pub const YEAR_ROWS: &str = "\
school,0,2,110,2,12\n\
school,0,3,120,3,12\n\
calendar,110,1,2025,1,0,2025-08-25,2025-12-12,1,2025-11-22,2025-11-30\n\
calendar,110,2,2025,2,0,2026-01-12,2026-05-01,0\n\
calendar,120,1,2025,1,0,2025-09-22,2025-12-05,0\n\
calendar,120,2,2025,2,0,2026-01-05,2026-03-20,0\n\
apply,110,3,5001,2025,1,2006,0,4,0,0,0,0,0,0,0,0,0,0,1,6000,0,0,0,0,0,0,0,0,0,6000,0,0,900,0,0,1,1,48,85000,0,0,0,0,0,0,0,0,5200,50000,35000,0,12000,20000,0\n\
enrol,110,4,5001,2025,1,12\n\
originate,110,5,5001,2025,24000\n\
pay,110,6,5001,2025,1,pell,1145.00\n\
pay,110,7,5001,2025,1,unsub,1000.00\n\
enrol,120,3,5001,2025,1,12\n\
originate,120,4,5001,2025,21000\n\
pay,120,5,5001,2025,1,pell,100.00\n\
enrol,120,6,5001,2025,2,12\n\
pay,120,7,5001,2025,2,pell,763.00\n\
apply,110,8,5001,2025,2,2006,0,4,0,0,0,0,0,0,0,0,0,0,1,6000,0,0,0,0,0,0,0,0,0,6000,0,0,900,0,0,1,1,48,87000,0,0,0,0,0,0,0,0,5200,50000,35000,0,12000,20000,0\n\
withdraw,120,8,5001,2025,2,2026-01-30,2026-02-05,100.00,0.00,0.00,0.00,0.00,0.00,0.00\n\
repay,120,9,5001,2025,2,pell,51.44\n\
repay,120,10,5001,2025,2,pell,0.01\n";

/// The first nine of them, up to the student's origination at the first school.
pub const NINE_ROWS: &str = "\
school,0,2,110,2,12\n\
school,0,3,120,3,12\n\
calendar,110,1,2025,1,0,2025-08-25,2025-12-12,1,2025-11-22,2025-11-30\n\
calendar,110,2,2025,2,0,2026-01-12,2026-05-01,0\n\
calendar,120,1,2025,1,0,2025-09-22,2025-12-05,0\n\
calendar,120,2,2025,2,0,2026-01-05,2026-03-20,0\n\
apply,110,3,5001,2025,1,2006,0,4,0,0,0,0,0,0,0,0,0,0,1,6000,0,0,0,0,0,0,0,0,0,6000,0,0,900,0,0,1,1,48,85000,0,0,0,0,0,0,0,0,5200,50000,35000,0,12000,20000,0\n\
enrol,110,4,5001,2025,1,12\n\
originate,110,5,5001,2025,24000\n";

/// The lines that answer the year's rows.
pub const YEAR_LINES: &str = "\
1 1 accepted 2 noted\n\
2 2 accepted 3 noted\n\
3 3 accepted 4 noted\n\
4 4 accepted 5 noted\n\
5 5 accepted 6 noted\n\
6 6 accepted 7 noted\n\
7 7 accepted 8 index A 5104 calculated 2290\n\
8 8 accepted 9 noted\n\
9 9 accepted 10 noted\n\
10 10 accepted 11 paid 1145.00 50000\n\
11 11 accepted 12 paid 1000.00 50000\n\
12 12 accepted 13 noted\n\
13 13 accepted 14 noted\n\
14 14 refused 58 110 120\n\
15 14 accepted 15 noted\n\
16 15 accepted 16 paid 1908.00 83319\n\
17 16 refused 93 114500 85500\n\
18 16 accepted 17 returned 34.7 65.30 51.44 0.00\n\
19 17 accepted 18 noted\n\
20 18 refused 70 5145 5144\n";

/// The first nine of them.
pub const NINE_LINES: &str = "\
1 1 accepted 2 noted\n\
2 2 accepted 3 noted\n\
3 3 accepted 4 noted\n\
4 4 accepted 5 noted\n\
5 5 accepted 6 noted\n\
6 6 accepted 7 noted\n\
7 7 accepted 8 index A 5104 calculated 2290\n\
8 8 accepted 9 noted\n\
9 9 accepted 10 noted\n";
